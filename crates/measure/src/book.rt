// The measure of a book, before the walk.
ghost use Rattle.std.specs.Prelude.{◌≡◌, List, length, replicate};
ghost use Rattle.logic.specs.Syntax.{Expr, rule};
ghost use Rattle.ends.specs.Books.{RuleAt, SomeRule, BookIs, SomeBook};
ghost use Rattle.measure.specs.State.{numbers};
ghost use Rattle.measure.specs.Book.{RuleAdded, BookAdded};

use super::{numbers, scan};

// Adds the measure of the rule at `at` to `state`; returns the place after the rule.
// Inner: the text was read before.
fn add_rule(book: &[u8], at: usize, state: &mut [u16]) -> usize
    requires { SomeRule book.now at × (length state.old ≡ numbers) }
    ensures { (K : Expr rule) → RuleAt book.now at K → RuleAdded at K result state.old state.new }
{
    let next = scan::scan(book, at, 1, 1, state);
    numbers::lengthen(state, next - at);
    next
}

// The measure of a book, into numbers that are 0; returns how many rules it has.
// Inner: the book was read before.
pub fn add_book(book: &[u8], state: &mut [u16]) -> usize
    requires { SomeBook book.now × (state.old ≡ replicate numbers 0) }
    ensures { (rules : List (Expr rule)) → BookIs book.now rules → BookAdded rules result state.new }
{
    let mut at = 0;
    let mut n = 0;
    while at < book.len() {
        at = add_rule(book, at, state);
        n += 1;
    }
    n
}
