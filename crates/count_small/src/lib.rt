// How many small sheets keep a book before and after an edit (item 12 of document 02). One sheet's buffer holds them all, one after the other: only label 0
// and arrow 0 differ, and the edit can change nothing else.
// Stack: the buffer, 8,704 bytes, in addition to what judging and carrying out an edit need.

#![tactic(auto)]

ghost use Rattle.std.specs.Prelude.{◌≡◌, IfOk};
ghost use Rattle.answer.specs.Answers.{result_asked};
ghost use Rattle.answer.specs.Asked.{outcome};
ghost use Rattle.count_small.specs.Questions.{ask_count, ask_four, counts_of};

use answer::Refusal;
use sheet::Sheet;
use text::Text;

mod names;
mod small;

// The four counts: kept before and after, kept then broken, broken then kept, broken twice.
#[derive(Clone, Copy, Default)]
pub struct Four {
    pub kept: usize,
    pub lost: usize,
    pub repaired: usize,
    pub broken: usize,
}

// The most nodes of a small sheet.
const MOST_SMALL: usize = 3;

// 61 for n, 11 to 16, 21 to 26, 61 for the names.
fn ask(n: usize, book: &[u8], edit: &[u8]) -> Result<(), Refusal>
    ensures { result_asked result ≡ outcome (ask_count n book.now edit.now) }
{
    if !(1..=MOST_SMALL).contains(&n) {
        return Err(Refusal::SmallSheets { place: 0 });
    }
    Text::check_book(book, n).passed()?;
    Text::check_edit(edit, n).passed()?;
    if names::only_first(book) && names::only_first(edit) {
        return Ok(());
    }
    Err(Refusal::SmallSheets { place: 0 })
}

// Counts the small sheets of n nodes by whether they keep the book before the edit, and after it.
pub fn count(n: usize, book: &[u8], edit: &[u8]) -> Result<Four, Refusal>
    ensures value { result_asked result ≡ ask_four n book.now edit.now }
    ensures four_value { IfOk result (λ four. four ≡ counts_of n book.now edit.now) }
{
    ask(n, book, edit)?;
    let mut sheet = [0u8; Sheet::BYTES];
    Sheet::blank(&mut sheet, n);
    Ok(small::count_all(&mut sheet, n, book, edit))
}
