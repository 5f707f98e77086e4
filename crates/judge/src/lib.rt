// Judging a book on a sheet ("The calls" of document 01).

#![tactic(auto)]

ghost use Rattle.std.specs.Prelude.{◌≡◌, ◌+◌, ◌≤◌, List, length};
ghost use Rattle.answer.specs.Answers.{asked};
ghost use Rattle.logic.specs.Syntax.{Expr, rule};
ghost use Rattle.logic.specs.Meaning.{hold_all};
ghost use Rattle.logic.specs.Limits.{ranges};
ghost use Rattle.sheet.specs.Sheet.{graph_of};
ghost use Rattle.sheet.specs.Questions.{Sound};
ghost use Rattle.text.specs.Part.{PartOf, no_part};
ghost use Rattle.judge.specs.Questions.{ask_rules, ask_judge};
ghost use Rattle.judge.specs.Judging.{RulesStand, SomeRulesStand, broken_part, judged_part, part_named};

use answer::{Answer, Refusal};
use sheet::Sheet;
use text::Text;

// The verdict in numbers: the answer, and the broken rule as a part of the text.
#[derive(Clone, Copy)]
pub struct Verdict {
    pub answer: Answer,
    pub start: usize,
    pub size: usize,
}

// A verdict that names no rule.
fn without_rule(answer: Answer) -> Verdict
    ensures { (result.answer ≡ answer) × (part_named result ≡ no_part) }
{
    Verdict {
        answer,
        start: 0,
        size: 0,
    }
}

// Judges the rules that stand in a text before `end`, of any number and length. Inner: the sheet is sound and the rules are in range.
pub fn judge_rules(sheet: &[u8], text: &[u8], end: usize) -> Verdict
    requires { Sound sheet.now × SomeRulesStand (ranges (graph_of sheet.now).n) text.now 0 end }
    ensures { (rules : List (Expr rule)) → RulesStand (ranges (graph_of sheet.now).n) text.now 0 end rules
        → (asked result.answer ≡ ask_rules (graph_of sheet.now) rules 0)
        × (part_named result ≡ broken_part (graph_of sheet.now) rules 0) }
{
    let n = Sheet::node_count(sheet);
    let all = Sheet::all_nodes(sheet);
    let mut at = 0;
    let mut i = 0;
    while at < end {
        let k = eval::eval_rule(sheet, n, all, text, at);
        if !k.holds {
            return Verdict {
                answer: Answer::Refused(Refusal::RuleBroken { place: i }),
                start: at,
                size: k.next - at,
            };
        }
        at = k.next;
        i += 1;
    }
    without_rule(Answer::Done)
}

// Whether each rule of a book holds on the sheet. Inner: the sheet is sound, and the book was read for its n.
pub fn holds(sheet: &[u8], book: &[u8]) -> bool
    requires { Sound sheet.now × SomeRulesStand (ranges (graph_of sheet.now).n) book.now 0 (length book.now) }
    ensures { (rules : List (Expr rule)) → RulesStand (ranges (graph_of sheet.now).n) book.now 0 (length book.now) rules
        → result ≡ hold_all (graph_of sheet.now) rules }
{
    let verdict = judge_rules(sheet, book, book.len());
    matches!(verdict.answer, Answer::Done)
}

// Judges a book: for callers that do not want a reference inside a struct.
pub fn decide(sheet: &[u8], book: &[u8]) -> Verdict
    ensures { (asked result.answer ≡ ask_judge sheet.now book.now)
        × (part_named result ≡ judged_part sheet.now book.now) }
{
    let first = Sheet::check(sheet);
    let Answer::Done = first else {
        return without_rule(first);
    };
    let second = Text::check_book(book, Sheet::node_count(sheet));
    let Answer::Done = second else {
        return without_rule(second);
    };
    judge_rules(sheet, book, book.len())
}

// The part of a book that a verdict names. Inner: it lies in the book.
fn part_of<'b>(book: &'b [u8], v: Verdict) -> &'b [u8]
    requires { v.start + v.size ≤ length book.now }
    ensures { PartOf book.entry (part_named v) result }
{
    let start = v.start;
    let end = start + v.size;
    &book[start..end]
}

// The answer of judge: the first broken rule as a part of the book itself; the part is empty in every other outcome.
#[derive(Clone, Copy)]
pub struct Judged<'b> {
    pub answer: Answer,
    pub rule: &'b [u8],
}

// Judge: sheet and book have separate lifetimes, and the result is a part of the book only.
pub fn judge<'s, 'b>(sheet: &'s [u8], book: &'b [u8]) -> Judged<'b>
    ensures { (asked result.answer ≡ ask_judge sheet.now book.now)
        × PartOf book.entry (judged_part sheet.now book.now) result.rule }
{
    let v = decide(sheet, book);
    Judged {
        answer: v.answer,
        rule: part_of(book, v),
    }
}
