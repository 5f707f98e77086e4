// The questions of a game, in order.
ghost use Rattle.std.specs.Prelude.{◌≡◌, List, ◌≤◌, eqb, length, take, drop, IfOk, IfErr};
ghost use Rattle.answer.specs.Answers.{result_asked};
ghost use Rattle.answer.specs.Asked.{outcome};
ghost use Rattle.logic.specs.Syntax.{Expr, rule, Edit};
ghost use Rattle.logic.specs.Carry.{carried_book};
ghost use Rattle.text.specs.Reading.{longest_text, text_limits};
ghost use Rattle.text.specs.Questions.{ask_edit};
ghost use Rattle.ends.specs.Edits.{EditAt, SomeEdit};
ghost use Rattle.ends.specs.Books.{BookIs, SomeBook};
ghost use Rattle.carry.specs.Carrying.{ask_carried};
ghost use Rattle.play.specs.Questions.{in_range, total, lists_right_def, ask_aims, cut, ask_edits, ask_fits, ask_game, first_refused_def, faulty_edit};
ghost use Rattle.play.specs.Standing.{EditsStand, EditsAt, SomeEdits, at_edit_asked};

use answer::{Answer, Refusal};
use sheet::Sheet;
use text::Text;

// The most edits of a side, and the most moves.
const MOST_EDITS: usize = 4;

const MOST_MOVES: usize = 6;

// A refusal, and the edit that it is about, by its place in the list. C's answer has a number there always, 0 where the refusal is about no edit
// (`faulty_edit`), so it is no Option.
#[derive(Clone, Copy)]
pub struct AtEdit {
    pub refusal: Refusal,
    pub edit: usize,
}

// What is refused before the edits is about none of them.
impl From<Refusal> for AtEdit {
    ghost from_gives = { λ r e. e ≡ record { refusal = r; edit = 0 } };

    fn from(refusal: Refusal) -> AtEdit {
        AtEdit { refusal, edit: 0 }
    }
}

// Whether both lists and the number of moves are in their ranges.
#[tactic(auto, unfolding(crate::specs::Questions::in_range))]
fn in_range(count: usize, dispatchers: usize, moves: usize) -> bool
    ensures { result ≡ in_range count dispatchers moves }
{
    1 <= dispatchers
        && dispatchers <= MOST_EDITS
        && dispatchers <= count
        && count - dispatchers <= MOST_EDITS
        && 1 <= moves
        && moves <= MOST_MOVES
}

// Whether these are the lengths of texts that fill `size` bytes. What is left is counted down: a sum could wrap.
fn fill(lengths: &[usize], size: usize) -> bool
    ensures { result ≡ eqb (total lengths.now) size }
{
    let mut left = size;
    for &length in lengths {
        if length > left {
            return false;
        }
        left -= length;
    }
    left == 0
}

// All that 62 asks.
#[tactic(auto, unfolding(crate::specs::Questions::lists_right_def))]
fn lists_right(edits: &[u8], lengths: &[usize], dispatchers: usize, moves: usize) -> bool
    ensures { result ≡ lists_right_def edits.now lengths.now dispatchers moves }
{
    in_range(lengths.len(), dispatchers, moves) && fill(lengths, edits.len())
}

// Sheet, book and goal: 1 to 4, 11 to 16 of the book and of the goal.
fn check_aims(sheet: &[u8], book: &[u8], goal: &[u8]) -> Result<(), Refusal>
    ensures { result_asked result ≡ outcome (ask_aims sheet.now book.now goal.now) }
{
    Sheet::check(sheet).passed()?;
    let n = Sheet::node_count(sheet);
    Text::check_book(book, n).passed()?;
    Text::check_rule(goal, n).passed()
}

// Whether the texts are well-formed edits: 21 to 26 for each, one by one. Inner: their lengths fill `edits`.
fn check_edits(edits: &[u8], lengths: &[usize], n: usize) -> Result<(), AtEdit>
    requires { total lengths.now ≡ length edits.now }
    ensures value { at_edit_asked result ≡ outcome (ask_edits (text_limits n) (cut edits.now lengths.now)) }
    ensures edit_value { IfErr result (λ e. e.edit ≡ first_refused_def (ask_edit (text_limits n)) (cut edits.now lengths.now)) }
{
    let mut at = 0;
    for (i, &length) in lengths.iter().enumerate() {
        let end = at + length;
        if let Answer::Refused(refusal) = Text::check_edit(&edits[at..end], n) {
            return Err(AtEdit { refusal, edit: i });
        }
        at = end;
    }
    Ok(())
}

// Whether the book carried back through an edit fits: 31 and 32. An output without room suffices: 33 comes after them. Inner: both were read before.
fn fits(book: &[u8], edit: &[u8]) -> Result<(), Refusal>
    requires { SomeBook book.now × SomeEdit edit.now 0 × (length edit.now ≤ longest_text) }
    ensures { (rules : List (Expr rule)) (Z : Edit) → BookIs book.now rules → EditAt edit.now 0 Z → result_asked result ≡ ask_carried (carried_book Z rules) }
{
    let Err(refusal) = carry::carry_into(book, edit, &mut []) else {
        return Ok(());
    };
    match refusal {
        Refusal::OutputLength { place: _ } => Ok(()),
        _ => Err(refusal),
    }
}

// The same through each of `count` edits. Inner: they stand at the start of the text, one after the other.
fn check_fits(book: &[u8], edits: &[u8], count: usize) -> Result<(), AtEdit>
    requires { SomeBook book.now × SomeEdits edits.now count }
    ensures value { (rules : List (Expr rule)) (Zs : List Edit) → BookIs book.now rules → EditsAt edits.now count Zs → at_edit_asked result ≡ ask_fits rules (take count Zs) }
    ensures edit_value { (rules : List (Expr rule)) (Zs : List Edit) → BookIs book.now rules → EditsAt edits.now count Zs
        → IfErr result (λ e. e.edit ≡ first_refused_def (λ Z. ask_carried (carried_book Z rules)) (take count Zs)) }
{
    let mut at = 0;
    for i in 0..count {
        let end = ends::end_of(edits, at);
        if let Err(refusal) = fits(book, &edits[at..end]) {
            return Err(AtEdit { refusal, edit: i });
        }
        at = end;
    }
    Ok(())
}

// The place after `count` edits. Inner: as above.
pub fn behind(edits: &[u8], count: usize) -> usize
    requires { SomeEdits edits.now count }
    ensures { (Zs : List Edit) (e : EditsAt edits.now count Zs) → EditsStand e.limits edits.now result (drop count Zs) }
{
    let mut at = 0;
    for _ in 0..count {
        at = ends::end_of(edits, at);
    }
    at
}

// All questions of a game: 62, 1 to 4, 11 to 16 for the book and for the goal, 21 to 26 for each edit, 31 and 32.
pub fn ask(
    sheet: &[u8],
    book: &[u8],
    goal: &[u8],
    edits: &[u8],
    lengths: &[usize],
    dispatchers: usize,
    moves: usize,
) -> Result<(), AtEdit>
    ensures value { at_edit_asked result ≡ outcome (ask_game sheet.now book.now goal.now edits.now lengths.now dispatchers moves) }
    ensures edit_value { IfErr result (λ e. e.edit ≡ faulty_edit sheet.now book.now goal.now edits.now lengths.now dispatchers moves) }
    ensures none_value { IfOk result (λ _. faulty_edit sheet.now book.now goal.now edits.now lengths.now dispatchers moves ≡ dispatchers) }
{
    if !lists_right(edits, lengths, dispatchers, moves) {
        return Err(AtEdit::from(Refusal::GameRange { place: 0 }));
    }
    check_aims(sheet, book, goal)?;
    check_edits(edits, lengths, Sheet::node_count(sheet))?;
    check_fits(book, edits, dispatchers)
}
