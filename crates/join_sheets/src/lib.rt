// Joins two sheets in the first's buffer (item 8 of document 02).

#![tactic(auto)]

ghost use Rattle.std.specs.Prelude.{◌≡◌, ◌+◌, ◌<◌, ◌≤◌, length, set};
ghost use Rattle.answer.specs.Answers.{asked};
ghost use Rattle.logic.specs.Limits.{max_nodes};
ghost use Rattle.seal.specs.Seal.{block_bytes, reseal};
ghost use Rattle.sheet.specs.Sheet.{present, store, graph_of, line_count};
ghost use Rattle.sheet.specs.Questions.{Sound};
ghost use Rattle.sheet.specs.Masks.{word_count};
ghost use Rattle.join_sheets.specs.Joined.{joined_graph, nodes_total, ask_join, joined_sheet};
ghost use Rattle.join_sheets.specs.BesideWrites.{raised, put_beside_def};

use answer::{Answer, Refusal};
use sheet::Sheet;

// The lines of block 0: the labels, and the nodes in use.
const LINES: usize = Sheet::LABELS + 1;

// The set x with its numbers raised by n. Inner: n is below 64.
fn raised(x: u64, n: usize) -> u64
    requires { n < 64 }
    ensures { result ≡ raised n x }
{
    x << n
}

// Joins the first m words of the other block, raised by n, to the words from `at` on. Inner: both are whole blocks and have those words.
#[tactic(auto, unfolding(crate::specs::BesideWrites::put_beside_def))]
fn put_beside(block: &mut [u8], at: usize, other: &[u8], m: usize, n: usize)
    requires { (length block.old ≡ block_bytes) × (length other.now ≡ block_bytes) × (at + m ≤ word_count) × (n < 64) }
    ensures { block.new ≡ put_beside_def at n other.now m block.old }
{
    for i in 0..m {
        let own = seal::word_place(at + i);
        let x = bitset::load(other, seal::word_place(i));
        let y = bitset::either(bitset::load(block, own), raised(x, n));
        bitset::store(block, own, y);
    }
}

// Block 0: joins each line to the other's and writes the total as the new n. Inner: the sheets have n and m nodes, at most 60 together.
fn join_lines(block: &mut [u8], other: &[u8], n: usize, m: usize)
    requires { (length block.old ≡ block_bytes) × (length other.now ≡ block_bytes) × (n + m ≤ max_nodes) }
    ensures { block.new ≡ reseal present.sums (set (put_beside_def 0 n other.now (line_count present) block.old) 2 (n + m)) }
{
    put_beside(block, 0, other, LINES, n);
    block[2] = (n + m) as u8;
    seal::seal(block);
}

// An arrow block: the other's rows follow the first n rows. Inner: as for `join_lines`.
fn join_rows(block: &mut [u8], other: &[u8], n: usize, m: usize)
    requires { (length block.old ≡ block_bytes) × (length other.now ≡ block_bytes) × (n + m ≤ max_nodes) }
    ensures { block.new ≡ reseal present.sums (put_beside_def n n other.now m block.old) }
{
    put_beside(block, n, other, m, n);
    seal::seal(block);
}

// Joins the second sheet's graph to the first's, block by block. Inner: both sheets are sound, and their nodes fit into one.
fn join_blocks(first: &mut [u8], second: &[u8])
    requires { Sound first.old × Sound second.now × (nodes_total first.old second.now ≤ max_nodes) }
    ensures { first.new ≡ store (joined_graph (graph_of first.old) (graph_of second.now)) }
{
    let n = Sheet::node_count(first);
    let m = Sheet::node_count(second);
    join_lines(&mut first[0..Sheet::BLOCK], &second[0..Sheet::BLOCK], n, m);
    for b in 1..Sheet::BLOCKS {
        let from = Sheet::BLOCK * b;
        let to = from + Sheet::BLOCK;
        join_rows(&mut first[from..to], &second[from..to], n, m);
    }
}

// Questions 1 to 4 of the first sheet, then of the second, then 58.
fn ask(first: &[u8], second: &[u8]) -> Answer
    ensures { asked result ≡ ask_join first.now second.now }
{
    let own = Sheet::check(first);
    let Answer::Done = own else {
        return own;
    };
    let other = Sheet::check(second);
    let Answer::Done = other else {
        return other;
    };
    let total = Sheet::node_count(first) + Sheet::node_count(second);
    if total <= Sheet::NODES {
        return Answer::Done;
    }
    Answer::Refused(Refusal::NodesTotal { place: total })
}

// Puts both sheets side by side into the first, or leaves it unchanged.
pub fn join_sheets(first: &mut [u8], second: &[u8]) -> Answer
    ensures result_value { asked result ≡ ask_join first.old second.now }
    ensures first_after { first.new ≡ joined_sheet first.old second.now }
{
    let answer = ask(first, second);
    let Answer::Done = answer else {
        return answer;
    };
    join_blocks(first, second);
    Answer::Done
}
