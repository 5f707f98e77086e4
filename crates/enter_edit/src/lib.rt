// Entering an edit: judged as a whole, on the sheet as it is, by the rules carried back through it; entered entire or not at all.
// The carried rules are judged one by one, in a scratch that need not hold the whole carried book (item 10 of document 02).
// Stack: 14,168 bytes for the edit without its idle steps and the work array, in addition to what measuring, writing and evaluating take; 16,384 more
// during a dry run of writing.

#![tactic(auto)]

ghost use Rattle.std.specs.Prelude.{◌≡◌, List, ◌<◌, ◌≤◌, length};
ghost use Rattle.logic.specs.Syntax.{Edit, Expr, rule};
ghost use Rattle.logic.specs.Carry.{carried_book};
ghost use Rattle.logic.specs.Limits.{ranges};
ghost use Rattle.sheet.specs.Sheet.{graph_of};
ghost use Rattle.sheet.specs.Questions.{Sound};
ghost use Rattle.text.specs.Reading.{longest_text, longest_carried};
ghost use Rattle.ends.specs.Edits.{EditAt};
ghost use Rattle.ends.specs.Books.{BookIs};
ghost use Rattle.write.specs.Links.{Fitting};
ghost use Rattle.write.specs.Rules.{SomeBookFits};
ghost use Rattle.runs.specs.Scratch.{longest_rule_def};
ghost use Rattle.enter_edit.specs.Singly.{BothRead, SomeRead, Singly, EachFits, SomeEachFits, EachJudged};
ghost use Rattle.answer.specs.Answers.{asked};
ghost use Rattle.runs.specs.Enter.{enter_answer, enter_sheet, enter_scratch};

use answer::{Answer, Refusal};
use sheet::Sheet;
use text::Text;
use write::Place;

// The length of the longest of a book's rules, each carried back by itself through the edit that stands at `from`: a dry run of writing them.
// Inner: both texts were read before, and the whole carried book fits `out`. `work` and `out` may hold anything before and after.
fn longest_rule(book: &[u8], edit: &[u8], from: usize, work: &mut [u16], out: &mut [u8]) -> usize
    requires { SomeBookFits book.now edit.now from (length out.old) × Fitting edit.now work.old }
    ensures { (rules : List (Expr rule)) (Z : Edit) → BookIs book.now rules → EditAt edit.now from Z
        → result ≡ longest_rule_def (carried_book Z rules) }
{
    let rest = write::start(edit, from, work);
    let mut most: usize = 0;
    let mut at = 0;
    while at < book.len() {
        let written = write::write_rule(book, edit, rest, work, out, Place { at, pos: 0 });
        most = most.max(written.pos);
        at = written.at;
    }
    most
}

// Writes each rule of a book, carried back through the edit that stands at `from`, at the scratch's start over the previous one, and judges it there on
// the sheet, up to the first that is broken.
// Inner: sheet, book and edit were read before, and each carried rule fits. `work` may hold anything before and after.
fn judge_each(
    sheet: &[u8],
    book: &[u8],
    edit: &[u8],
    from: usize,
    work: &mut [u16],
    scratch: &mut [u8],
) -> Answer
    requires { Sound sheet.now
        × SomeEachFits (ranges (graph_of sheet.now).n) book.now edit.now from (length scratch.old)
        × Fitting edit.now work.old }
    ensures { (rules : List (Expr rule)) (Z : Edit)
        → EachFits (ranges (graph_of sheet.now).n) book.now edit.now from (length scratch.old) rules Z
        → EachJudged (graph_of sheet.now) (carried_book Z rules) result scratch.old scratch.new }
{
    let n = Sheet::node_count(sheet);
    let all = Sheet::all_nodes(sheet);
    let rest = write::start(edit, from, work);
    let mut at = 0;
    let mut i = 0;
    while at < book.len() {
        let written = write::write_rule(book, edit, rest, work, scratch, Place { at, pos: 0 });
        if !eval::rule_holds(sheet, n, all, scratch, 0) {
            return Answer::Refused(Refusal::RuleBroken { place: i });
        }
        at = written.at;
        i += 1;
    }
    Answer::Done
}

// A length that the scratch must have: that of the whole carried book where there is room for it, else that of the longest single carried rule.
// Inner: both texts were read before, and the carried book has at most 16,384 bytes. `work` may hold anything before and after.
fn room_needed(
    book: &[u8],
    edit: &[u8],
    from: usize,
    work: &mut [u16],
    len: usize,
    room: usize,
) -> usize
    requires { SomeBookFits book.now edit.now from longest_carried × Fitting edit.now work.old }
    ensures { (len ≤ room → result ≡ len)
        × (room < len → (rules : List (Expr rule)) (Z : Edit) → BookIs book.now rules → EditAt edit.now from Z
        → result ≡ longest_rule_def (carried_book Z rules)) }
{
    if len <= room {
        return len;
    }
    let mut out = [0u8; carry::LONGEST_CARRIED];
    longest_rule(book, edit, from, work, &mut out)
}

// 31 and 32 for the book carried back through an edit, 33 for its longest single rule; then each carried rule is written into the scratch and judged.
// Inner: the sheet is sound, and book and edit were read for its n.
fn judge_carried(sheet: &[u8], book: &[u8], edit: &[u8], scratch: &mut [u8]) -> Answer
    requires { Sound sheet.now × SomeRead (ranges (graph_of sheet.now).n) book.now edit.now × (length edit.now ≤ longest_text) }
    ensures { (rules : List (Expr rule)) (Z : Edit)
        → BothRead (ranges (graph_of sheet.now).n) book.now edit.now rules Z
        → Singly (graph_of sheet.now) (carried_book Z rules) result scratch.old scratch.new }
{
    if book.len() == 0 {
        return Answer::Done;
    }
    let mut kept = [0u8; Text::LONGEST];
    let mut work = [0u16; write::WORK];
    let size = measure::size_of_book(book, edit, &mut work, &mut kept);
    let len = size.len;
    if len > carry::LONGEST_CARRIED {
        return Answer::Refused(Refusal::CarriedLength { place: 0 });
    }
    if size.levels > carry::DEEPEST_CARRIED {
        return Answer::Refused(Refusal::CarriedLevels { place: 0 });
    }
    let start = size.start;
    let room = scratch.len();
    let needed = room_needed(book, &kept, start, &mut work, len, room);
    if needed > room {
        return Answer::Refused(Refusal::OutputLength { place: needed });
    }
    judge_each(sheet, book, &kept, start, &mut work, scratch)
}

// Enters an edit: asks all questions in order; writes each carried rule at the scratch's start, over the previous one, and judges it there on the present
// sheet; then makes the steps.
pub fn enter(sheet: &mut [u8], book: &[u8], edit: &[u8], scratch: &mut [u8]) -> Answer
    ensures result_value { asked result
        ≡ enter_answer sheet.old book.now edit.now (length scratch.old) }
    ensures sheet_after { sheet.new
        ≡ enter_sheet sheet.old book.now edit.now (length scratch.old) }
    ensures scratch_after { scratch.new
        ≡ enter_scratch sheet.old book.now edit.now scratch.old }
{
    let sound = Sheet::check(sheet);
    let Answer::Done = sound else {
        return sound;
    };
    let n = Sheet::node_count(sheet);
    let rules = Text::check_book(book, n);
    let Answer::Done = rules else {
        return rules;
    };
    let steps = Text::check_edit(edit, n);
    let Answer::Done = steps else {
        return steps;
    };
    let held = judge_carried(sheet, book, edit, scratch);
    let Answer::Done = held else {
        return held;
    };
    apply::run_edit(sheet, edit, 0);
    Answer::Done
}
