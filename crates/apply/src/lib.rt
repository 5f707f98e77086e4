// Carrying out an edit in the sheet's buffer. Each step evaluates its whole expression on the sheet just before it, then writes
// its label or its rows and seals that one block: after each step the buffer is the sheet of the graph after that step.

#![tactic(auto)]

ghost use Rattle.std.specs.Prelude.{◌≡◌, ◌<◌, ◌≤◌, get_or};
ghost use Rattle.answer.specs.Asked.{outcome};
ghost use Rattle.answer.specs.Answers.{asked};
ghost use Rattle.logic.specs.Syntax.{Edit};
ghost use Rattle.logic.specs.Limits.{ranges};
ghost use Rattle.bitset.specs.Words.{combined};
ghost use Rattle.sheet.specs.Sheet.{graph_of};
ghost use Rattle.sheet.specs.Questions.{Sound};
ghost use Rattle.text.specs.Stands.{EditStands, SomeEditStands};
ghost use Rattle.apply.specs.Apply.{ask_apply, applied_sheet};
ghost use Rattle.apply.specs.Made.{label_operation, arrow_code_def, Ready, StepMade, Made};

use answer::Answer;
use logic::{Arrow, Label};
use sheet::Sheet;
use store::Store;
use text::Text;

// 31 and 32: the new word of a label, from its old word x and the word e of the expression.
fn changed_label(c: u8, x: u64, e: u64) -> u64
    ensures { result ≡ combined (label_operation c) x e }
{
    if c == 0x31 {
        bitset::either(x, e)
    } else {
        bitset::minus(x, e)
    }
}

// The code that combines rows as a step does: 13 for 33, 15 for 34.
fn arrow_code(c: u8) -> u8
    ensures { result ≡ arrow_code_def c }
{
    if c == 0x33 { 0x13 } else { 0x15 }
}

// 31 and 32. Inner, as all up to `run_edit`: the sheet is sound with these n nodes, and an edit in range stands at `at`.
// Each of them returns where the next step stands.
fn label_step(sheet: &mut [u8], n: usize, all: u64, edit: &[u8], at: usize) -> usize
    requires { Ready sheet.old n all × SomeEditStands (ranges n) edit.now at × (0x30 < get_or edit.now at 0) × (get_or edit.now at 0 ≤ 0x32) }
    ensures { Ready sheet.new n all × ((Z : Edit) → EditStands (ranges n) edit.now at Z → StepMade n edit.now at Z result sheet.old sheet.new) }
{
    let c = edit[at];
    let k = Label(edit[at + 1]);
    let e = eval::eval_node(sheet, n, all, edit, at + 2);
    let x = Sheet::label_word(sheet, k);
    Store::put_label(sheet, k, changed_label(c, x, e.set));
    e.next
}

// 33 and 34.
fn arrow_step(sheet: &mut [u8], n: usize, all: u64, edit: &[u8], at: usize) -> usize
    requires { Ready sheet.old n all × SomeEditStands (ranges n) edit.now at × (0x32 < get_or edit.now at 0) × (get_or edit.now at 0 ≤ 0x34) }
    ensures { Ready sheet.new n all × ((Z : Edit) → EditStands (ranges n) edit.now at Z → StepMade n edit.now at Z result sheet.old sheet.new) }
{
    let c = edit[at];
    let a = Arrow(edit[at + 1]);
    let mut new = [0u64; 64];
    let next = eval::eval_arrow(sheet, n, all, edit, at + 2, &mut new);
    let mut rows = [0u64; 64];
    rows::relations::arrow_rows(sheet, n, a, &mut rows);
    rows::relations::combine_rows(arrow_code(c), n, &mut rows, &new);
    Store::put_rows(sheet, a, rows);
    next
}

// 35: makes P if its rule holds, else Q, and skips the other.
#[cycle(choose_step_make_steps_one_step)]
fn choose_step(sheet: &mut [u8], n: usize, all: u64, edit: &[u8], at: usize) -> usize
    requires { Ready sheet.old n all × SomeEditStands (ranges n) edit.now at × (0x34 < get_or edit.now at 0) }
    ensures { Ready sheet.new n all × ((Z : Edit) → EditStands (ranges n) edit.now at Z → StepMade n edit.now at Z result sheet.old sheet.new) }
{
    let rule = eval::eval_rule(sheet, n, all, edit, at + 1);
    if rule.holds {
        let second = make_steps(sheet, n, all, edit, rule.next);
        ends::end_of(edit, second)
    } else {
        let second = ends::end_of(edit, rule.next);
        make_steps(sheet, n, all, edit, second)
    }
}

// The step that stands at `at`.
#[cycle(choose_step_make_steps_one_step)]
fn one_step(sheet: &mut [u8], n: usize, all: u64, edit: &[u8], at: usize) -> usize
    requires { Ready sheet.old n all × SomeEditStands (ranges n) edit.now at × (0x30 < get_or edit.now at 0) }
    ensures { Ready sheet.new n all × ((Z : Edit) → EditStands (ranges n) edit.now at Z → StepMade n edit.now at Z result sheet.old sheet.new) }
{
    let c = edit[at];
    if c <= 0x32 {
        label_step(sheet, n, all, edit, at)
    } else if c <= 0x34 {
        arrow_step(sheet, n, all, edit, at)
    } else {
        choose_step(sheet, n, all, edit, at)
    }
}

// The steps of an edit in order, by a loop: the stack grows only with the nesting of 35, at most 31 deep.
// Returns the place after the edit.
#[cycle(choose_step_make_steps_one_step)]
fn make_steps(sheet: &mut [u8], n: usize, all: u64, edit: &[u8], at: usize) -> usize
    requires { Ready sheet.old n all × SomeEditStands (ranges n) edit.now at }
    ensures { Ready sheet.new n all × ((Z : Edit) → EditStands (ranges n) edit.now at Z → Made at Z result sheet.old sheet.new) }
{
    let mut p = at;
    while edit[p] > 0x30 {
        p = one_step(sheet, n, all, edit, p);
    }
    p + 1
}

// Carries out the edit that stands at `at` and returns the place after it. Inner: the sheet is sound, and the edit was read before.
pub fn run_edit(sheet: &mut [u8], edit: &[u8], at: usize) -> usize
    requires { Sound sheet.old × SomeEditStands (ranges (graph_of sheet.old).n) edit.now at }
    ensures { Sound sheet.new × ((Z : Edit) → EditStands (ranges (graph_of sheet.old).n) edit.now at Z → Made at Z result sheet.old sheet.new) }
{
    let n = Sheet::node_count(sheet);
    let all = Sheet::all_nodes(sheet);
    make_steps(sheet, n, all, edit, at)
}

// Carries out an edit without a book: 1 to 4 of the sheet, 21 to 26 of the edit, then the steps.
pub fn apply(sheet: &mut [u8], edit: &[u8]) -> Answer
    ensures result_value { asked result ≡ outcome (ask_apply sheet.old edit.now) }
    ensures sheet_after { sheet.new ≡ applied_sheet sheet.old edit.now }
{
    let sheet_answer = Sheet::check(sheet);
    let Answer::Done = sheet_answer else {
        return sheet_answer;
    };
    let edit_answer = Text::check_edit(edit, Sheet::node_count(sheet));
    let Answer::Done = edit_answer else {
        return edit_answer;
    };
    run_edit(sheet, edit, 0);
    Answer::Done
}
