// What turns a graph into bytes: labels and arrows written into a sheet, and old cards converted. (`Sheet::blank` makes a blank sheet.)

#![tactic(auto)]

ghost use Rattle.std.specs.Prelude.{◌≡◌, ℕ, ◌<◌, ◌≤◌, length, get_or};
ghost use Rattle.answer.specs.Answers.{asked};
ghost use Rattle.logic.specs.Graph.{Nodes, Pairs};
ghost use Rattle.logic.specs.Limits.{max_nodes, label_count, arrow_count, PairsIn};
ghost use Rattle.logic.specs.Steps.{relabel, rejoin};
ghost use Rattle.bitset.specs.Words.{set_of};
ghost use Rattle.seal.specs.Seal.{block_bytes, reseal};
ghost use Rattle.seal.specs.Forms.{form_of};
ghost use Rattle.sheet.specs.Sheet.{present, store, graph_of, relabel_all, Rows};
ghost use Rattle.sheet.specs.Questions.{Sound};
ghost use Rattle.sheet.specs.Writes.{put_rows_def};
ghost use Rattle.store.specs.Converted.{ask_convert, converted};

use answer::Answer;
use logic::{Arrow, Label};
use seal::Modulo;
use sheet::Sheet;

// The calls that write sheets: either all bytes of a buffer, or one block of a sound sheet.
#[derive(Clone, Copy)]
pub struct Store;

impl Store {
    // Converts an old card with these sums to the current sheet of the same graph, in the card's buffer, or leaves it unchanged: 1 to 4 of its form.
    pub fn convert(sums: Modulo, card: &mut [u8]) -> Answer
        ensures result_value { asked result ≡ ask_convert (form_of sums) card.old }
        ensures card_after { card.new ≡ converted (form_of sums) card.old }
    {
        let answer = Sheet::check_in(sums, false, card);
        let Answer::Done = answer else {
            return answer;
        };
        let n = usize::from(card[2]);
        bitset::store(&mut card[0..Sheet::BLOCK], Sheet::IN_USE, bitset::lowest(n));
        for b in 0..Sheet::BLOCKS {
            let from = Sheet::BLOCK * b;
            let to = from + Sheet::BLOCK;
            seal::seal(&mut card[from..to]);
        }
        Answer::Done
    }

    // Gives label k the nodes of the set x. Inner: the sheet is sound, and the label is in range.
    pub fn put_label(sheet: &mut [u8], k: Label, x: u64)
        requires { Sound sheet.old × (k.0 < label_count) }
        ensures { (v : Nodes) → x ≡ set_of (graph_of sheet.old).n v → sheet.new ≡ store (relabel (graph_of sheet.old) k.0 v) }
    {
        seal::put_word(
            &mut sheet[0..Sheet::BLOCK],
            seal::word_place(usize::from(k.0)),
            x,
        );
    }

    // Gives each label the nodes of its word. Inner: the sheet is sound.
    pub fn put_labels(sheet: &mut [u8], sets: [u64; 64])
        requires { Sound sheet.old }
        ensures { (v : ℕ → Nodes) → ((k : ℕ) → k < label_count → get_or sets k 0 ≡ set_of (graph_of sheet.old).n (v k)) → sheet.new ≡ store (relabel_all (graph_of sheet.old) v) }
    {
        put_words(&mut sheet[0..Sheet::BLOCK], Sheet::LABELS, sets);
    }

    // Gives arrow a the pairs in the given rows; only the first n rows are read. Inner: the sheet is sound, and the arrow is in range.
    pub fn put_rows(sheet: &mut [u8], a: Arrow, rows: [u64; 64])
        requires { Sound sheet.old × (a.0 < arrow_count) }
        ensures { (v : Pairs) → PairsIn (graph_of sheet.old) v → Rows (graph_of sheet.old).n v rows → sheet.new ≡ store (rejoin (graph_of sheet.old) a.0 v) }
    {
        let n = Sheet::node_count(sheet);
        let from = Sheet::BLOCK * usize::from(a.0) + Sheet::BLOCK;
        let to = from + Sheet::BLOCK;
        put_words(&mut sheet[from..to], n, rows);
    }
}

// Puts the first n of the rows into the block's words and seals it. Inner: the block has that many words.
#[tactic(auto, unfolding(sheet::specs::Writes::put_rows_def))]
fn put_words(block: &mut [u8], n: usize, rows: [u64; 64])
    requires { (length block.old ≡ block_bytes) × (n ≤ max_nodes) }
    ensures { block.new ≡ reseal present.sums (put_rows_def n rows block.old) }
{
    for i in 0..n {
        bitset::store(block, seal::word_place(i), rows[i]);
    }
    seal::seal(block);
}
