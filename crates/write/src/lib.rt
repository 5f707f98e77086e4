// A rule carried back through an edit, written byte for byte, each byte once.

#![tactic(auto)]

ghost use Rattle.std.specs.Prelude.{List, ℕ, length};
ghost use Rattle.logic.specs.Syntax.{rule, Expr, Edit};
ghost use Rattle.ends.specs.Edits.{EditAt, SomeEdit};
ghost use Rattle.ends.specs.Books.{RuleAt, BookIs};
ghost use Rattle.write.specs.Rules.{Started, SomeRuleLeft, RuleWritten, SomeBookFits, BookWritten};
ghost use Rattle.write.specs.Links.{Fitting};

pub mod bytes;
mod expressions;
mod names;
mod ways;

// The parts of the work array: the last step of each of the 64 names, the offsets of the steps passed, the link of each, the offsets of the edits that follow,
// notes of the 35s passed before.
// A step has at least three bytes, so an edit has at most 1,365.
const STACK: usize = 64;

const LINKS: usize = 1430;

const BEHIND: usize = 2796;

const NOTES: usize = 4844;

pub const WORK: usize = 5036;

// Where reading and writing have come to.
#[derive(Clone, Copy)]
pub struct Place {
    pub at: usize,
    pub pos: usize,
}

// How far a walk has come: the place in the edit, the number of steps passed, the number of edits that follow.
#[derive(Clone, Copy)]
pub struct Reached {
    pub at: usize,
    pub h: usize,
    pub d: usize,
}

// Walks through the edit that stands at `from` as far as all rules go the same way; the rules are written from there on.
// Inner: it was read before. `work` may hold anything before; until the last rule is written, only these functions write it.
pub fn start(edit: &[u8], from: usize, work: &mut [u16]) -> Reached
    requires { SomeEdit edit.now from × Fitting edit.now work.old }
    ensures { Started edit.now from work.new result.at result.h result.d }
{
    work[..64].fill(0);
    work[NOTES..].fill(0);
    ways::walk(
        edit,
        work,
        Reached {
            at: from,
            h: 0,
            d: 0,
        },
    )
}

// Writes the rule at a place of a text as carried back through an edit, from where the first walk through it rests.
// Inner: rule and edit were read before, and there is room. The work array is afterwards as that walk left it.
pub fn write_rule(
    text: &[u8],
    edit: &[u8],
    rest: Reached,
    work: &mut [u16],
    out: &mut [u8],
    place: Place,
) -> Place
    requires { SomeRuleLeft text.now place.at edit.now work.old rest.at rest.h rest.d place.pos (length out.old) × Fitting edit.now work.old }
    ensures { (from : ℕ) → Started edit.now from work.old rest.at rest.h rest.d
        → ((K : Expr rule) (Z : Edit) → RuleAt text.now place.at K → EditAt edit.now from Z → RuleWritten Z K place.at out.old place.pos result.at result.pos out.new)
        × Started edit.now from work.new rest.at rest.h rest.d }
{
    let mut last = [0u16; 64];
    last.copy_from_slice(&work[..64]);
    let end = ways::write_way(text, edit, work, rest, out, place);
    work[..64].copy_from_slice(&last);
    end
}

// Writes a book carried back through the edit that stands at `from`, rule by rule, and returns its length.
// Inner: both were read before, and there is room. `work` may hold anything before and after.
pub fn write_book(book: &[u8], edit: &[u8], from: usize, work: &mut [u16], out: &mut [u8]) -> usize
    requires { SomeBookFits book.now edit.now from (length out.old) × Fitting edit.now work.old }
    ensures { (rules : List (Expr rule)) (Z : Edit) → BookIs book.now rules → EditAt edit.now from Z → BookWritten Z rules out.old result out.new }
{
    let rest = start(edit, from, work);
    let mut place = Place { at: 0, pos: 0 };
    while place.at < book.len() {
        place = write_rule(book, edit, rest, work, out, place);
    }
    place.pos
}
