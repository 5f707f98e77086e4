// The check bytes of a block, in two forms: that of item 2, and that of document 01 for old cards. Both are computed over words of 8 bytes.

#![tactic(auto)]

ghost use Rattle.std.specs.Prelude.{◌≡◌, true, ◌<◌, ◌≤◌, ◌+◌, ◌*◌, ◌%◌, ◌∷◌, ◌++◌, length, get_or, take, replicate};
ghost use Rattle.bitset.specs.Words.{put_word_def};
ghost use Rattle.seal.specs.Seal.{block_bytes, modulo255, modulo257, sums, stored, seal_of, seal_right_def, reseal};
ghost use Rattle.seal.specs.Forms.{form_of};
ghost use Rattle.seal.specs.Lanes.{odds_at, pairs_at, four_at, before_at, lane_sum_def, lane_places, total, weighed};

// The length of a block, and of its body; the check bytes fill the rest.
pub const BLOCK: usize = 512;

pub const BODY: usize = 508;

// Where s and t are in a block.
const S: usize = BODY;

const T: usize = BODY + 2;

const MODULUS: u32 = 257;

// The same for an old card.
const FORMER_BODY: usize = 510;

const FORMER_S: usize = FORMER_BODY;

const FORMER_T: usize = FORMER_BODY + 1;

const FORMER_MODULUS: u64 = 255;

// The modulus of the sums: 257, or 255 on old cards.
#[derive(Clone, Copy)]
pub enum Modulo {
    M257,
    M255,
}

// The sums s and t of a body, each below the modulus.
#[derive(Clone, Copy)]
struct Sums {
    s: u16,
    t: u16,
}

// The offset of word i of a block, after the head of 16 bytes. Inner: a block has at most 61 words.
pub fn word_place(i: usize) -> usize
    requires { i < 64 }
    ensures { result ≡ 16 + 8 * i }
{
    16 + 8 * i
}

// The 8 bytes of a word as lanes of 16 bits: the sums of each two neighbours, and the bytes at odd places.
#[derive(Clone, Copy)]
struct Word {
    pairs: u64,
    odds: u64,
}

// The lanes of the 8 bytes from `at` on. Inner: the callers' bytes reach that far.
fn lanes(s: &[u8], at: usize) -> Word
    requires { at + 8 ≤ length s.now }
    ensures pairs_value { (result.pairs ≡ pairs_at s.now at) × (result.odds ≡ odds_at s.now at) }
    ensures pairs_bound { (result.pairs ≤ 0x01FE01FE01FE01FE) × (result.odds ≤ 0x00FF00FF00FF00FF) }
{
    let w = bitset::load(s, at);
    let odds = w / 0x100 & 0x00FF00FF00FF00FF;
    Word {
        pairs: (w & 0x00FF00FF00FF00FF) + odds,
        odds,
    }
}

// The sum of a word's lanes.
fn lane_sum(x: u64) -> u64
    ensures { (result ≡ lane_sum_def x) × (result ≤ 0x3FFFC) }
{
    x % 0x10000 + x / 0x10000 % 0x10000 + x / 0x100000000 % 0x10000 + x / 0x1000000000000
}

// The sum of the bytes, each counted as often as its place in its word says.
fn places(pairs: u64, odds: u64) -> u64
    ensures { (result ≡ lane_places pairs odds) × (result ≤ 0x100000) }
{
    let second = pairs / 0x10000 % 0x10000;
    let third = pairs / 0x100000000 % 0x10000;
    let fourth = pairs / 0x1000000000000;
    lane_sum(odds) + 2 * (second + 2 * third + 3 * fourth)
}

// Four words, 64 bytes apart, as lanes: their sum, their sum with each counted as often as words of the four follow it, and the bytes at odd places.
#[derive(Clone, Copy)]
struct Four {
    sum: u64,
    before: u64,
    odds: u64,
}

// The four words from `at` on. Inner: the callers' block reaches that far.
fn four_words(block: &[u8], at: usize) -> Four
    requires { at + 200 ≤ length block.now }
    ensures sum_value { (result.sum ≡ four_at pairs_at block.now at) × (result.before ≡ before_at block.now at) × (result.odds ≡ four_at odds_at block.now at) }
    ensures sum_bound { (result.sum ≤ 0x07F807F807F807F8) × (result.before ≤ 0x0BF40BF40BF40BF4) × (result.odds ≤ 0x03FC03FC03FC03FC) }
{
    let x = lanes(block, at);
    let y = lanes(block, at + 64);
    let u = lanes(block, at + 128);
    let w = lanes(block, at + 192);
    let two = x.pairs + y.pairs;
    let three = two + u.pairs;
    Four {
        sum: three + w.pairs,
        before: x.pairs + two + three,
        odds: x.odds + y.odds + u.odds + w.odds,
    }
}

// The plain totals of bytes: their sum, and their sum with each byte counted once for itself and once for each byte after it.
#[derive(Clone, Copy)]
struct Totals {
    s: u64,
    t: u64,
}

// The totals of a whole block, check bytes included. Its eight parts of 64 bytes are added side by side, one word of each at a time. For t, the sum
// of the eight words counts once for itself and once for each later word of its part, and a part's sum once for each word of the later parts;
// the place of each byte in its word is subtracted at the end. Inner: callers pass a whole block.
fn block_totals(block: &[u8]) -> Totals
    requires { length block.now ≡ block_bytes }
    ensures { (result.s ≡ total block.now) × (result.t ≡ weighed block.now) }
{
    let mut first = 0;
    let mut second = 0;
    let mut before = 0;
    let mut odds = 0;
    let mut z = 0;
    for j in 0..8 {
        let x = four_words(block, 8 * j);
        let y = four_words(block, 8 * j + 256);
        first += x.sum;
        second += y.sum;
        before += x.before + y.before;
        odds += x.odds + y.odds;
        let eight = x.sum + y.sum;
        let halves = eight + eight / 0x100000000;
        let v = 8 - j as u64;
        z += (halves + halves / 0x10000) % 0x10000 * v;
    }
    let all = first + second;
    let behind = lane_sum(before) + 4 * lane_sum(first);
    Totals {
        s: lane_sum(all),
        t: 8 * (z + 8 * behind) - places(all, odds),
    }
}

// The totals of a block's first `end` bytes: the bytes after them are subtracted one by one. Inner: callers pass a whole block.
fn totals_to(block: &[u8], end: usize) -> Totals
    requires { (length block.now ≡ block_bytes) × (end ≤ block_bytes) }
    ensures { (result.s ≡ total (take end block.now)) × (result.t ≡ weighed (take end block.now)) }
{
    let mut all = block_totals(block);
    for i in (end..BLOCK).rev() {
        all.t -= all.s;
        all.s -= u64::from(block[i]);
    }
    all
}

// The remainder modulo 257. The argument has 32 bits because a remainder is cheaper there.
fn left(x: u32) -> u16
    ensures { (result ≡ x % modulo257.modulus) × (result < modulo257.modulus) }
{
    (x % MODULUS) as u16
}

// The sums of a block's body. The plain totals of 508 bytes fit into 32 bits. Inner: callers pass a whole block.
fn sums_of(block: &[u8]) -> Sums
    requires { length block.now ≡ block_bytes }
    ensures s_value { (result.s ≡ (sums modulo257 (take modulo257.body_bytes block.now)).s) × (result.t ≡ (sums modulo257 (take modulo257.body_bytes block.now)).t) }
    ensures s_lt_modulus { (result.s < modulo257.modulus) × (result.t < modulo257.modulus) }
{
    let all = totals_to(block, BODY);
    Sums {
        s: left(all.s as u32),
        t: left(all.t as u32),
    }
}

// The number in two bytes from `at` on, the lowest first. Inner: the callers' block reaches that far.
fn pair(block: &[u8], at: usize) -> u16
    requires { at + 2 ≤ length block.now }
    ensures { result ≡ get_or block.now at 0 + get_or block.now (at + 1) 0 * 256 }
{
    u16::from_le_bytes([block[at], block[at + 1]])
}

// Whether the check bytes modulo 257 are right. Inner: callers pass a whole block.
fn right_257(block: &[u8]) -> bool
    requires { length block.now ≡ block_bytes }
    ensures { result ≡ seal_right_def modulo257 block.now }
{
    let c = sums_of(block);
    pair(block, S) == c.s && pair(block, T) == c.t
}

// Whether the check bytes modulo 255, those of an old card, are right. A function of its own: a sum is one byte here and two there. Inner: callers pass a whole block.
fn right_255(block: &[u8]) -> bool
    requires { length block.now ≡ block_bytes }
    ensures { result ≡ seal_right_def modulo255 block.now }
{
    let all = totals_to(block, FORMER_BODY);
    u64::from(block[FORMER_S]) == all.s % FORMER_MODULUS
        && u64::from(block[FORMER_T]) == all.t % FORMER_MODULUS
}

// Whether a block's check bytes are right in the given form. Inner: callers pass a whole block.
pub fn seal_right(form: Modulo, block: &[u8]) -> bool
    requires { length block.now ≡ block_bytes }
    ensures { result ≡ seal_right_def (form_of form) block.now }
{
    match form {
        Modulo::M257 => right_257(block),
        Modulo::M255 => right_255(block),
    }
}

// Whether a block's check bytes are those of an arrow block without a row, whose body is 2, b and zeros. Only the four check bytes are read, as one
// number: s is 2 + b, and t is 508 times 2 plus 507 times b, which is 245 - 7b modulo 257. Inner: callers pass a whole block, with b at most 16.
pub fn bare_seal(block: &[u8], b: usize) -> bool
    requires { (length block.now ≡ block_bytes) × (b ≤ 16) }
    ensures { result ≡ seal_of modulo257 (2 ∷ b ∷ replicate 506 0) block.now }
{
    let n = b as u32;
    u32::from_le_bytes([block[S], block[S + 1], block[T], block[T + 1]])
        == 2 + n + 0x10000 * (245 - 7 * n)
}

// Writes the sums after a block's body. Inner: callers pass a whole block.
fn put_sums(block: &mut [u8], c: Sums)
    requires { length block.old ≡ block_bytes }
    ensures { block.new ≡ take modulo257.body_bytes block.old ++ stored modulo257 (record { s = c.s; t = c.t }) }
{
    block[S..T].copy_from_slice(&c.s.to_le_bytes());
    block[T..BLOCK].copy_from_slice(&c.t.to_le_bytes());
}

// Makes a block's check bytes right. Inner: callers pass a whole block.
pub fn seal(block: &mut [u8])
    requires { length block.old ≡ block_bytes }
    ensures { block.new ≡ reseal modulo257 block.old }
{
    let c = sums_of(block);
    put_sums(block, c);
}

// Puts x into the 8 bytes of a block's body from `at` on and updates the check bytes from their old values, without reading any other byte.
// A byte that changes by d changes s by d, and t by d once for each byte from it to the body's end. All eight bytes are handled at once:
// the new lanes minus the old, with 514 (2 * 257) added to each lane of pairs and 257 to each of odd places, so that none is below 0.
// Inner: the bytes are within the body, and the check bytes are right.
pub fn put_word(block: &mut [u8], at: usize, x: u64)
    requires { (length block.old ≡ block_bytes) × (at + 8 ≤ modulo257.body_bytes) × (seal_right_def modulo257 block.old ≡ true) }
    ensures { block.new ≡ reseal modulo257 (put_word_def block.old at x) }
{
    let s = u64::from(pair(block, S));
    let t = u64::from(pair(block, T));
    let before = lanes(block, at);
    bitset::store(block, at, x);
    let after = lanes(block, at);
    let pairs = after.pairs + 0x0202020202020202 - before.pairs;
    let odds = after.odds + 0x0101010101010101 - before.odds;
    let d = lane_sum(pairs);
    let moved = t + (BODY - at) as u64 * d - places(pairs, odds);
    let changed = Sums {
        s: left((s + d) as u32),
        t: left(moved as u32),
    };
    put_sums(block, changed);
}
