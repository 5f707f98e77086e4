// Measuring a carried book without writing it: one walk back over the edit, which also writes the edit again without its idle steps.
//
// Stack: 260 bytes of numbers and about 650 bytes for each 35 inside a 35, of which there are at most 30: under 24 kB.

#![tactic(auto)]

ghost use Rattle.std.specs.Prelude.{◌≡◌, List, ◌≤◌, length};
ghost use Rattle.text.specs.Reading.{longest_text};
ghost use Rattle.logic.specs.Syntax.{Edit, Expr, rule};
ghost use Rattle.ends.specs.Edits.{EditAt, SomeEdit};
ghost use Rattle.ends.specs.Books.{BookIs, SomeBook};
ghost use Rattle.measure.specs.Book.{BookSized, BookKept};

use back::Spot;
use text::Text;

mod back;
mod book;
mod keep;
mod numbers;
mod scan;

// The length in bytes and the levels of a carried book, each capped at one more than the most bytes of a carried book,
// and where the edit without its idle steps starts.
#[derive(Clone, Copy)]
pub struct BookSize {
    pub len: usize,
    pub levels: usize,
    pub start: usize,
}

// The size of a book carried through an edit, in one walk over the edit. Where the book is not empty, `kept` holds from
// `start` to its end the edit without its idle steps, which carries each rule of the book to the same text.
// Inner: both texts were read before. The bytes of `kept` before that, and all of them for an empty book, mean nothing. `stack` is scratch: it may hold
// anything before and after.
pub fn size_of_book(book: &[u8], edit: &[u8], stack: &mut [u16], kept: &mut [u8]) -> BookSize
    requires { SomeBook book.now × SomeEdit edit.now 0 × (length edit.now ≤ longest_text) × (length edit.now ≤ length stack.old) × (length kept.old ≡ longest_text) }
    ensures { (rules : List (Expr rule)) (Z : Edit) → BookIs book.now rules → EditAt edit.now 0 Z → BookSized Z rules result.len result.levels × BookKept Z rules result.start kept.new }
{
    if book.is_empty() {
        return BookSize {
            len: 0,
            levels: 0,
            start: 0,
        };
    }
    let mut state = [0u16; numbers::ALL];
    let rules = book::add_book(book, &mut state);
    let spot = Spot {
        at: 0,
        top: 0,
        pos: Text::LONGEST,
    };
    let start = back::back(edit, rules, spot, stack, &mut state, kept);
    BookSize {
        len: state[numbers::LENGTH] as usize,
        levels: state[numbers::LEVELS] as usize,
        start,
    }
}
