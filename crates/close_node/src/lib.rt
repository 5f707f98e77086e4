// Closing and opening a node: calls, not steps of an edit. Both judge the sheet that they would leave, in the sheet's buffer; a refusal puts
// the nodes in use back.

#![tactic(auto)]

ghost use Rattle.std.specs.Prelude.{◌≡◌, not, ◌||◌, List, ◌<◌, ◌≤◌, length};
ghost use Rattle.answer.specs.Answers.{asked};
ghost use Rattle.answer.specs.Asked.{outcome};
ghost use Rattle.logic.specs.Syntax.{Expr, rule};
ghost use Rattle.logic.specs.Graph.{Graph, is_node, any_below};
ghost use Rattle.logic.specs.Limits.{Within, ranges};
ghost use Rattle.logic.specs.Steps.{update};
ghost use Rattle.logic.specs.Closing.{has_label_def, has_arrow_def, can_close_def};
ghost use Rattle.bitset.specs.Words.{set_of};
ghost use Rattle.sheet.specs.Sheet.{store, graph_of};
ghost use Rattle.sheet.specs.Questions.{Sound};
ghost use Rattle.rows.specs.Operations.{OfSheet};
ghost use Rattle.judge.specs.Judging.{RulesStand, SomeRulesStand};
ghost use Rattle.close_node.specs.Questions.{ask_node, ask_close, ask_open, closed_sheet, opened_sheet};
ghost use Rattle.close_node.specs.Changing.{set_use, Judged};

use answer::{Answer, Refusal};
use logic::{Arrow, Label, Node};
use sheet::Sheet;
use text::Text;

// The word of the nodes in use with that node, or without it. Inner: the word is a graph's, and the node is below its n.
fn with_use(all: u64, node: Node, used: bool) -> u64
    requires { node.0 < 64 }
    ensures { (g : Graph) → g.n ≤ 64 → node.0 < g.n → all ≡ set_of g.n (is_node g) → result ≡ set_of g.n (update g.in_use node.0 used) }
{
    let one = bitset::only(node.0 as usize);
    if used {
        bitset::either(all, one)
    } else {
        bitset::minus(all, one)
    }
}

// Puts the node into the sheet's nodes in use, or takes it out of them. Inner: the sheet is sound and has that node, as in all functions below.
fn put_use(sheet: &mut [u8], node: Node, used: bool)
    requires { Sound sheet.old × (node.0 < (graph_of sheet.old).n) }
    ensures { sheet.new ≡ store (set_use (graph_of sheet.old) node.0 used) }
{
    let all = with_use(Sheet::all_nodes(sheet), node, used);
    seal::put_word(&mut sheet[0..Sheet::BLOCK], Sheet::IN_USE, all);
}

// Whether the node has a label.
fn has_label(sheet: &[u8], node: Node) -> bool
    requires { Sound sheet.now × (node.0 < (graph_of sheet.now).n) }
    ensures { result ≡ has_label_def (graph_of sheet.now) node.0 }
{
    for k in 0..Sheet::LABELS {
        if bitset::member(Sheet::label_word(sheet, Label(k as u8)), node.0 as usize) {
            return true;
        }
    }
    false
}

// Whether an arrow of that kind goes from the node or to it.
fn touched(sheet: &[u8], n: usize, a: Arrow, node: Node) -> bool
    requires { OfSheet sheet.now n a.0 × (node.0 < n) }
    ensures { result ≡ any_below n (λ j. (graph_of sheet.now).joined a.0 node.0 j || (graph_of sheet.now).joined a.0 j node.0) }
{
    Sheet::row_word(sheet, a, node) != 0
        || bitset::member(
            rows::over_kinds::kind_all_ends(sheet, n, a),
            node.0 as usize,
        )
}

// Whether an arrow of any kind does.
fn has_arrow(sheet: &[u8], node: Node) -> bool
    requires { Sound sheet.now × (node.0 < (graph_of sheet.now).n) }
    ensures { result ≡ has_arrow_def (graph_of sheet.now) node.0 }
{
    let n = Sheet::node_count(sheet);
    for a in 0..Sheet::ARROWS {
        if touched(sheet, n, Arrow(a as u8), node) {
            return true;
        }
    }
    false
}

// 54: the node has no label and no arrow, and another node is in use.
fn can_close(sheet: &[u8], node: Node) -> bool
    requires { Sound sheet.now × (node.0 < (graph_of sheet.now).n) }
    ensures { result ≡ can_close_def (graph_of sheet.now) node.0 }
{
    !has_label(sheet, node)
        && !has_arrow(sheet, node)
        && with_use(Sheet::all_nodes(sheet), node, false) != 0
}

// Whether the node is in use.
fn in_use(sheet: &[u8], node: Node) -> bool
    requires { Sound sheet.now × (node.0 < (graph_of sheet.now).n) }
    ensures { result ≡ (graph_of sheet.now).in_use node.0 }
{
    bitset::member(Sheet::all_nodes(sheet), node.0 as usize)
}

// Sheet, book and range: 1 to 4, 11 to 16 and 7. The node is a number of any size here, and a `Node` once this has passed.
fn ask(sheet: &[u8], book: &[u8], node: usize) -> Answer
    ensures { asked result ≡ outcome (ask_node sheet.now book.now node) }
{
    let sound = Sheet::check(sheet);
    let Answer::Done = sound else {
        return sound;
    };
    let n = Sheet::node_count(sheet);
    let rules = Text::check_book(book, n);
    let Answer::Done = rules else {
        return rules;
    };
    if node < n {
        return Answer::Done;
    }
    Answer::Refused(Refusal::BitRange { place: 0 })
}

// 41 for the sheet with that node in use, or not; a refusal puts it back. Inner: that is a change, a sheet can store the result, and the book was read.
fn judge_with(sheet: &mut [u8], book: &[u8], node: Node, used: bool) -> Answer
    requires { Sound sheet.old
        × (node.0 < (graph_of sheet.old).n)
        × ((graph_of sheet.old).in_use node.0 ≡ not used)
        × Within (set_use (graph_of sheet.old) node.0 used)
        × SomeRulesStand (ranges (graph_of sheet.old).n) book.now 0 (length book.now) }
    ensures { (rules : List (Expr rule)) → RulesStand (ranges (graph_of sheet.old).n) book.now 0 (length book.now) rules
        → Judged rules (set_use (graph_of sheet.old) node.0 used) result sheet.old sheet.new }
{
    put_use(sheet, node, used);
    let verdict = judge::judge_rules(sheet, book, book.len());
    if let Answer::Refused(_) = verdict.answer {
        put_use(sheet, node, !used);
    }
    verdict.answer
}

// Closes a node of the sheet, or leaves the sheet as it is.
pub fn close(sheet: &mut [u8], book: &[u8], node: usize) -> Answer
    ensures result_value { asked result ≡ ask_close sheet.old book.now node }
    ensures sheet_after { sheet.new ≡ closed_sheet sheet.old book.now node }
{
    let answer = ask(sheet, book, node);
    let Answer::Done = answer else {
        return answer;
    };
    let it = Node(node as u8);
    if !in_use(sheet, it) {
        return Answer::Done;
    }
    if !can_close(sheet, it) {
        return Answer::Refused(Refusal::NodeTaken { place: node });
    }
    judge_with(sheet, book, it, false)
}

// Opens a node of the sheet, or leaves the sheet as it is.
pub fn open(sheet: &mut [u8], book: &[u8], node: usize) -> Answer
    ensures result_value { asked result ≡ ask_open sheet.old book.now node }
    ensures sheet_after { sheet.new ≡ opened_sheet sheet.old book.now node }
{
    let answer = ask(sheet, book, node);
    let Answer::Done = answer else {
        return answer;
    };
    let it = Node(node as u8);
    if in_use(sheet, it) {
        return Answer::Done;
    }
    judge_with(sheet, book, it, true)
}
