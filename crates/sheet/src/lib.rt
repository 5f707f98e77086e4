// The sheet: 17 blocks of 512 bytes that store a graph ("The sheet" of document 01).

#![tactic(auto)]

ghost use Rattle.std.specs.Prelude.{◌≡◌, ◌<◌, ◌≤◌, length, get_or};
ghost use Rattle.answer.specs.Answers.{asked, result_asked};
ghost use Rattle.answer.specs.Asked.{after};
ghost use Rattle.logic.specs.Graph.{is_node};
ghost use Rattle.logic.specs.Limits.{max_nodes, label_count, arrow_count};
ghost use Rattle.bitset.specs.Words.{set_of};
ghost use Rattle.sheet.specs.Sheet.{SheetForm, sheet_bytes, graph_in, graph_of, store, blank};
ghost use Rattle.sheet.specs.SheetForms.{form_in};
ghost use Rattle.sheet.specs.Questions.{ask_sheet_in, ask_sheet, Sound, ask_blank, ask_label_bit, ask_arrow_bit};

use answer::{Answer, Refusal};
use logic::{Arrow, Label, Node};
use seal::Modulo;

mod block;

// The calls on a sheet's bytes, and the limits of document 01.
#[derive(Clone, Copy)]
pub struct Sheet;

impl Sheet {
    pub const NODES: usize = Node::MAX as usize;

    pub const LABELS: usize = Label::COUNT as usize;

    pub const ARROWS: usize = Arrow::COUNT as usize;

    pub const BLOCK: usize = seal::BLOCK;

    pub const BLOCKS: usize = 1 + Sheet::ARROWS;

    pub const BYTES: usize = Sheet::BLOCKS * Sheet::BLOCK;

    // The offset of the nodes in use, line 48 of block 0: the same as `seal::word_place` gives, which a constant cannot call.
    pub const IN_USE: usize = 16 + 8 * Sheet::LABELS;

    // Questions 1 to 4, for any bytes.
    pub fn check(sheet: &[u8]) -> Answer
        ensures { asked result ≡ ask_sheet sheet.now }
    {
        Sheet::check_in(Modulo::M257, true, sheet)
    }

    // The word of the nodes in use, as a sheet of a form says. Inner: the sheet has its full length, and n is its node count.
    fn nodes_told(held: bool, sheet: &[u8], n: usize) -> u64
        requires { (length sheet.now ≡ sheet_bytes) × (n ≡ get_or sheet.now 2 0) }
        ensures { (φ : SheetForm) → held ≡ φ.holds_use → n ≤ max_nodes → result ≡ set_of 64 (is_node (graph_in φ sheet.now)) }
    {
        if n > Sheet::NODES {
            return 0;
        }
        let below = bitset::lowest(n);
        if held {
            return bitset::both(below, bitset::load(sheet, Sheet::IN_USE));
        }
        below
    }

    // Questions 1 to 4 in the given form of sheets.
    pub fn check_in(sums: Modulo, held: bool, sheet: &[u8]) -> Answer
        ensures { asked result ≡ ask_sheet_in (form_in sums held) sheet.now }
    {
        if sheet.len() != Sheet::BYTES {
            return Answer::Refused(Refusal::SheetLength { place: 0 });
        }
        let n = sheet[2] as usize;
        let all = Sheet::nodes_told(held, sheet, n);
        for b in 0..Sheet::BLOCKS {
            let from = Sheet::BLOCK * b;
            let to = from + Sheet::BLOCK;
            let answer = block::ask_block(sums, held, &sheet[from..to], b, n, all);
            let Answer::Done = answer else {
                return answer;
            };
        }
        Answer::Done
    }

    // Makes the buffer the sheet of n nodes, all in use, without labels and arrows, or leaves it unchanged: questions 5 and 1.
    pub fn blank(buf: &mut [u8], n: usize) -> Answer
        ensures result_value { asked result ≡ ask_blank n (length buf.old) }
        ensures buf_after { buf.new ≡ after (ask_blank n (length buf.old)) (λ _. store (blank n)) buf.old }
    {
        if n < 1 || n > Sheet::NODES {
            return Answer::Refused(Refusal::NodeCount { place: 0 });
        }
        if buf.len() != Sheet::BYTES {
            return Answer::Refused(Refusal::SheetLength { place: 0 });
        }
        block::blank_block(&mut buf[0..Sheet::BLOCK], 1, 0, n as u8, bitset::lowest(n));
        for b in 1..Sheet::BLOCKS {
            let from = Sheet::BLOCK * b;
            let to = from + Sheet::BLOCK;
            block::blank_block(&mut buf[from..to], 2, b as u8, 0, 0);
        }
        Answer::Done
    }

    // Whether node i has label k: questions 1 to 4 of the sheet, then 7.
    pub fn label_bit(sheet: &[u8], k: Label, i: Node) -> Result<bool, Refusal>
        ensures { result_asked result ≡ ask_label_bit sheet.now k.0 i.0 }
    {
        Sheet::check(sheet).passed()?;
        if (k.0 as usize) < Sheet::LABELS && (i.0 as usize) < Sheet::node_count(sheet) {
            return Ok(bitset::member(Sheet::label_word(sheet, k), i.0 as usize));
        }
        Err(Refusal::BitRange { place: 0 })
    }

    // Whether arrow a goes from node i to node j: questions 1 to 4 of the sheet, then 7.
    pub fn arrow_bit(sheet: &[u8], a: Arrow, i: Node, j: Node) -> Result<bool, Refusal>
        ensures { result_asked result ≡ ask_arrow_bit sheet.now a.0 i.0 j.0 }
    {
        Sheet::check(sheet).passed()?;
        let n = Sheet::node_count(sheet);
        if (a.0 as usize) < Sheet::ARROWS && (i.0 as usize) < n && (j.0 as usize) < n {
            return Ok(bitset::member(Sheet::row_word(sheet, a, i), j.0 as usize));
        }
        Err(Refusal::BitRange { place: 0 })
    }

    // How many nodes the sheet has. Inner: the sheet is sound.
    pub fn node_count(sheet: &[u8]) -> usize
        requires { Sound sheet.now }
        ensures { (result ≡ (graph_of sheet.now).n) × (1 ≤ result) × (result ≤ max_nodes) }
    {
        sheet[2] as usize
    }

    // The set of the sheet's nodes in use. Inner: the sheet is sound.
    pub fn all_nodes(sheet: &[u8]) -> u64
        requires { Sound sheet.now }
        ensures { result ≡ set_of (graph_of sheet.now).n (is_node (graph_of sheet.now)) }
    {
        bitset::load(sheet, Sheet::IN_USE)
    }

    // The set of the nodes with label k. Inner: the sheet is sound, and the label is in range.
    pub fn label_word(sheet: &[u8], k: Label) -> u64
        requires { Sound sheet.now × (k.0 < label_count) }
        ensures { result ≡ set_of (graph_of sheet.now).n ((graph_of sheet.now).labelled k.0) }
    {
        bitset::load(sheet, seal::word_place(k.0 as usize))
    }

    // The set of the nodes to which arrow a goes from node i. Inner: the sheet is sound, and arrow and node are in range.
    pub fn row_word(sheet: &[u8], a: Arrow, i: Node) -> u64
        requires { Sound sheet.now × (a.0 < arrow_count) × (i.0 < (graph_of sheet.now).n) }
        ensures { result ≡ set_of (graph_of sheet.now).n ((graph_of sheet.now).joined a.0 i.0) }
    {
        bitset::load(
            sheet,
            Sheet::BLOCK * (a.0 as usize + 1) + seal::word_place(i.0 as usize),
        )
    }
}
