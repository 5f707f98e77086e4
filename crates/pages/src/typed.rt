// Types a page back into a sheet.
ghost use Rattle.std.specs.Prelude.{◌≡◌, List, ℕ, ◌+◌, ◌*◌, ◌<◌, ◌≤◌, length};
ghost use Rattle.answer.specs.Answers.{asked};
ghost use Rattle.answer.specs.Asked.{passed, outcome};
ghost use Rattle.logic.specs.Graph.{Graph, Nodes, is_node};
ghost use Rattle.logic.specs.Limits.{max_nodes};
ghost use Rattle.bitset.specs.Words.{set_of};
ghost use Rattle.sheet.specs.Sheet.{store, graph_of};
ghost use Rattle.sheet.specs.Questions.{Sound};
ghost use Rattle.pages.specs.Page.{line_bytes};
ghost use Rattle.pages.specs.Typed.{block_shown, lines_of, head_is_def, head_asked, ask_head, set_shown_def, SetsRead, ask_lines, typed, ask_type, typed_sheet};
ghost use Rattle.pages.specs.Prints.{HasBlock};

use crate::lines::{LINE, Shown, line_is, lines_of, marks_of, put_head_of};
use answer::{Answer, Refusal};
use logic::Arrow;
use sheet::Sheet;
use store::Store;

// Whether the page has the head of what it should show and the right number of lines. Inner: n is a sheet's node count.
fn head_is(page: &[u8], n: usize, shown: Shown) -> bool
    requires { n ≤ max_nodes }
    ensures { result ≡ head_is_def n page.now (block_shown shown) }
{
    if page.len() != LINE * lines_of(n, shown) + LINE {
        return false;
    }
    let mut wanted = [0u8; LINE];
    put_head_of(&mut wanted, n, shown);
    &page[0..LINE] == wanted.as_slice()
}

// What the head names, if it is a head of a sheet of n. Inner: n is a sheet's node count.
fn head_of(page: &[u8], n: usize) -> Option<Shown>
    requires { n ≤ max_nodes }
    ensures { head_asked result ≡ ask_head n page.now }
{
    if head_is(page, n, Shown::Labels) {
        return Some(Shown::Labels);
    }
    if page.len() < LINE {
        return None;
    }
    let kind = 10 * (page[1] % 16) as usize + (page[2] % 16) as usize;
    if kind < Sheet::ARROWS && head_is(page, n, Shown::Arrows(kind)) {
        return Some(Shown::Arrows(kind));
    }
    None
}

// The set that line x shows, from its marks and the nodes in use. Inner: x is below 64, and the words are of a graph with at most 60 nodes.
fn set_shown(used: u64, shown: Shown, x: usize, marked: u64) -> u64
    requires { x < 64 }
    ensures { (g : Graph) (v : Nodes) → g.n ≤ max_nodes → used ≡ set_of g.n (is_node g) → marked ≡ set_of g.n v → result ≡ set_of g.n (set_shown_def g (block_shown shown) x v) }
{
    let kept = bitset::both(used, marked);
    match shown {
        Shown::Arrows(_) => { if bitset::member(used, x) { kept } else { 0 } }
        Shown::Labels => { if x < Sheet::LABELS { kept } else { used } }
    }
}

// Reads the sets of the page's m lines; 51 at the first that printing could not give. Inner: the sheet is sound, the page has m lines, and each has a word.
fn read_lines(sheet: &[u8], page: &[u8], shown: Shown, m: usize, sets: &mut [u64]) -> Answer
    requires { Sound sheet.now × (m ≤ max_nodes) × (length page.now ≡ line_bytes * m + line_bytes) × (length sets.old ≡ 64) }
    ensures result_value { asked result ≡ ask_lines (graph_of sheet.now) (block_shown shown) page.now m 0 }
    ensures sets_read { asked result ≡ passed tt → SetsRead (graph_of sheet.now) (block_shown shown) page.now sets.new m }
{
    let n = Sheet::node_count(sheet);
    let used = Sheet::all_nodes(sheet);
    for x in 0..m {
        let from = LINE * (x + 1);
        let to = from + LINE;
        let line = &page[from..to];
        let set = set_shown(used, shown, x, marks_of(line, n));
        if !line_is(line, n, x, set) {
            return Answer::Refused(Refusal::PageLine { place: x + 1 });
        }
        sets[x] = set;
    }
    Answer::Done
}

// Gives the arrow these rows, or each label its set. Inner: the sheet is sound.
fn put_sets(sheet: &mut [u8], shown: Shown, sets: [u64; 64])
    requires { Sound sheet.old × HasBlock (block_shown shown) }
    ensures { (page : List ℕ) → SetsRead (graph_of sheet.old) (block_shown shown) page sets (lines_of (graph_of sheet.old).n (block_shown shown)) → sheet.new ≡ store (typed (graph_of sheet.old) page (block_shown shown)) }
{
    match shown {
        Shown::Arrows(a) => Store::put_rows(sheet, Arrow(a as u8), sets),
        Shown::Labels => Store::put_labels(sheet, sets),
    }
}

// Replaces the block that the page's head names by what the page shows: 1 to 4 of the sheet, then 51.
pub fn type_page(sheet: &mut [u8], page: &[u8]) -> Answer
    ensures result_value { asked result ≡ outcome (ask_type sheet.old page.now) }
    ensures sheet_after { sheet.new ≡ typed_sheet sheet.old page.now }
{
    let answer = Sheet::check(sheet);
    let Answer::Done = answer else {
        return answer;
    };
    let n = Sheet::node_count(sheet);
    let Some(shown) = head_of(page, n) else {
        return Answer::Refused(Refusal::PageLine { place: 0 });
    };
    let mut sets = [0u64; 64];
    let lines = read_lines(sheet, page, shown, lines_of(n, shown), &mut sets);
    let Answer::Done = lines else {
        return lines;
    };
    put_sets(sheet, shown, sets);
    Answer::Done
}
