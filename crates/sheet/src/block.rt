// The questions about one block of a sheet, and a blank block. Inner: callers pass a whole block to every function here.
ghost use Rattle.std.specs.Prelude.{◌≡◌, true, false, cond, ℕ, ◌%◌, ◌^◌, ◌<◌, ◌≤◌, ltb, length};
ghost use Rattle.logic.specs.Graph.{Nodes};
ghost use Rattle.logic.specs.Limits.{max_nodes};
ghost use Rattle.answer.specs.Answers.{asked};
ghost use Rattle.bitset.specs.Words.{set_of, member};
ghost use Rattle.seal.specs.Seal.{block_bytes, reseal};
ghost use Rattle.seal.specs.Forms.{form_of};
ghost use Rattle.sheet.specs.Sheet.{block_count, padding, SheetForm, present};
ghost use Rattle.sheet.specs.SheetForms.{form_in};
ghost use Rattle.sheet.specs.Questions.{head_right_def, zero_right_def, ask_block_def};
ghost use Rattle.sheet.specs.Writes.{blank_block_def};
ghost use Rattle.sheet.specs.Masks.{word_count, blank_in, Outside, Edges, Bare, Over, Told, SomeTold, line_mask, row_mask};

use super::Sheet;
use answer::{Answer, Refusal};
use seal::Modulo;

// The whole words of a body, from byte 16 on.
const WORDS: usize = 61;

// The most nodes, for the number in a head.
const NODES: u64 = Sheet::NODES as u64;

// Question 3: are bytes 0 to 2 of block b right, is n from 1 to 60, and is some node below n in use? The bytes are compared as one number.
// Inner: b is the number of a sheet's block, and `all` is the word of its nodes in use.
fn head_right(block: &[u8], b: usize, all: u64) -> bool
    requires { (length block.now ≡ block_bytes) × (b < block_count) }
    ensures { (φ : SheetForm) (n : ℕ) (nodes : Nodes) → Told φ block.now b n all nodes → result ≡ head_right_def φ b block.now }
{
    let head = bitset::load(block, 0) % 0x100_0000;
    if b == 0 {
        let n = head / 0x1_0000;
        return head % 0x1_0000 == 1 && 1 <= n && n <= NODES && all != 0;
    }
    head == 2 + 0x100 * b as u64
}

// The bytes after the last word of a body, from the word in a block's last 8 bytes.
fn behind_words(form: Modulo, last: u64) -> u64
    ensures { result ≡ last % 256 ^ padding (form_of form) word_count }
{
    match form {
        Modulo::M257 => last % 0x1_0000_0000,
        Modulo::M255 => last % 0x1_0000_0000_0000,
    }
}

// The bytes before and after the words, joined by or: bytes 3 to 15, and those from the last word to the check bytes.
fn edges(form: Modulo, block: &[u8]) -> u64
    requires { length block.now ≡ block_bytes }
    ensures { Edges (form_of form) block.now result }
{
    let last = bitset::load(block, seal::BLOCK - 8);
    bitset::load(block, 0) / 0x100_0000 | bitset::load(block, 8) | behind_words(form, last)
}

// The bits outside the mask in the words `from` to `to`, joined by or. Inner: a block has that many words.
fn outside(block: &[u8], from: usize, to: usize, mask: u64) -> u64
    requires { (from ≤ to) × (to ≤ word_count) × (length block.now ≡ block_bytes) }
    ensures { Outside block.now from to mask result }
{
    let mut r = 0;
    for j in from..to {
        r |= bitset::minus(bitset::load(block, seal::word_place(j)), mask);
    }
    r
}

// What line 48 may have: the nodes below n, or nothing if block 0 does not hold the nodes in use.
fn use_mask(held: bool, n: usize) -> u64
    requires { n ≤ max_nodes }
    ensures { result ≡ cond held (set_of 64 (λ i. ltb i n)) 0 }
{
    if held { bitset::lowest(n) } else { 0 }
}

// The bits outside the masks of block 0, joined by or.
fn lines_over(held: bool, block: &[u8], n: usize, all: u64) -> u64
    requires { (n ≤ max_nodes) × (length block.now ≡ block_bytes) }
    ensures { (φ : SheetForm) → held ≡ φ.holds_use → Over block.now (line_mask φ n all) result }
{
    let labels = outside(block, 0, Sheet::LABELS, all);
    let line = outside(block, Sheet::LABELS, Sheet::LABELS + 1, use_mask(held, n));
    labels | line | outside(block, Sheet::LABELS + 1, WORDS, 0)
}

// The words whose numbers are in a set, joined by or. Inner: each number is that of a word.
fn bare(block: &[u8], set: u64) -> u64
    requires { ((j : ℕ) → member set j ≡ true → j < word_count) × (length block.now ≡ block_bytes) }
    ensures { Bare block.now set result }
{
    let mut r = 0;
    let mut left = set;
    while 0 < left {
        let w = bitset::load(block, seal::word_place(bitset::first(left)));
        r |= bitset::minus(w, 0);
        left = bitset::but_first(left);
    }
    r
}

// The bits outside the masks of an arrow block, joined by or: rows may have only nodes in use, and the row of a closed node is empty.
// All rows, those from n on too, are checked against the same mask: a loop of fixed length takes half the time.
fn rows_over(block: &[u8], n: usize, all: u64) -> u64
    requires { (n ≤ max_nodes) × (length block.now ≡ block_bytes) }
    ensures { (nodes : Nodes) → ((i : ℕ) → n ≤ i → nodes i ≡ false) → all ≡ set_of 64 nodes → Over block.now (row_mask all) result }
{
    let rows = outside(block, 0, WORDS, all);
    let closed = bare(block, bitset::minus(bitset::lowest(n), all));
    rows | closed | outside(block, n, WORDS, 0)
}

// Question 4: is everything in block b zero that must be zero? There is one test, at the end. Inner: n is in range, by question 3 of block 0.
fn zero_right(sums: Modulo, held: bool, block: &[u8], b: usize, n: usize, all: u64) -> bool
    requires { (n ≤ max_nodes) × (length block.now ≡ block_bytes) }
    ensures { (nodes : Nodes) → ((i : ℕ) → n ≤ i → nodes i ≡ false) → all ≡ set_of 64 nodes → result ≡ zero_right_def (form_in sums held) n nodes b block.now }
{
    let ends = edges(sums, block);
    if b == 0 {
        return ends | lines_over(held, block, n, all) == 0;
    }
    ends | rows_over(block, n, all) == 0
}

// Whether block b is an arrow block without a row, as most are. That settles 2 to 4 without computing sums, since they follow from b. It looks at the
// head first, then at the check bytes, which give away a block with rows. Never so for block 0 or an old card. Inner: b is the number of a sheet's block.
fn blank_arrow(sums: Modulo, block: &[u8], b: usize) -> bool
    requires { (length block.now ≡ block_bytes) × (b < block_count) }
    ensures { result ≡ blank_in sums b block.now }
{
    let Modulo::M257 = sums else {
        return false;
    };
    b != 0
        && bitset::load(block, 0) == 2 + 0x100 * b as u64
        && seal::bare_seal(block, b)
        && edges(Modulo::M257, block) | outside(block, 0, WORDS, 0) == 0
}

// Questions 2 to 4 of block b. Inner: n and `all` are what block 0 says, and n is in range once block 0 has passed question 3.
pub fn ask_block(sums: Modulo, held: bool, block: &[u8], b: usize, n: usize, all: u64) -> Answer
    requires { (length block.now ≡ block_bytes) × (head_right_def (form_in sums held) b block.now ≡ true → n ≤ max_nodes) × SomeTold (form_in sums held) block.now b n all × (b < block_count) }
    ensures { (nodes : Nodes) → Told (form_in sums held) block.now b n all nodes → asked result ≡ ask_block_def (form_in sums held) n nodes b block.now }
{
    if blank_arrow(sums, block, b) {
        return Answer::Done;
    }
    if !seal::seal_right(sums, block) {
        return Answer::Refused(Refusal::CheckBytes { place: b });
    }
    if !head_right(block, b, all) {
        return Answer::Refused(Refusal::BlockHead { place: b });
    }
    if !zero_right(sums, held, block, b, n, all) {
        return Answer::Refused(Refusal::NotZero { place: b });
    }
    Answer::Done
}

// Fills the block with three bytes, the word of line 48 and otherwise zeros, and seals it.
pub fn blank_block(block: &mut [u8], x: u8, y: u8, z: u8, used: u64)
    requires { length block.old ≡ block_bytes }
    ensures { block.new ≡ reseal present.sums (blank_block_def x y z used) }
{
    bitset::wipe(block);
    block[0] = x;
    block[1] = y;
    block[2] = z;
    bitset::store(block, Sheet::IN_USE, used);
    seal::seal(block);
}
