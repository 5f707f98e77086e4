// The small sheets by their numbers, put into one buffer one after the other, and counted.
// Inner, all of them: n is 1 to 3, book and edit were read with it, the edit names only label 0 and arrow 0, and the buffer holds a small sheet of n nodes.
ghost use Rattle.std.specs.Prelude.{◌≡◌, List, ◌+◌, ◌*◌, ◌^◌, ◌<◌, ◌≤◌};
ghost use Rattle.logic.specs.Syntax.{Edit, Expr, rule};
ghost use Rattle.bitset.specs.Words.{set_of, member};
ghost use Rattle.sheet.specs.Sheet.{store, Rows};
ghost use Rattle.count_small.specs.Small.{bits, small_sheet, four_counts};
ghost use Rattle.count_small.specs.Questions.{most_small};
ghost use Rattle.count_small.specs.Counting.{Loaded, TextsStand, SomeTextsStand, Turned, tallied, Room};

use crate::Four;
use logic::{Arrow, Label};
use store::Store;

// Whether the book was kept before the edit, and after it.
#[derive(Clone, Copy)]
struct Judged {
    before: bool,
    next: bool,
}

// n bits of a number, starting at bit `from`.
fn part(x: u64, from: usize, n: usize) -> u64
    requires { (from < 64) × (n < 64) }
    ensures { result ≡ set_of n (λ j. member x (from + j)) }
{
    bitset::both(x >> from, bitset::lowest(n))
}

// The rows of arrow 0 of small sheet x.
fn rows_of(x: u64, n: usize) -> [u64; 64]
    requires { n ≤ most_small }
    ensures { Rows n ((small_sheet n x).joined 0) result }
{
    let mut rows = [0u64; 64];
    for i in 0..n {
        rows[i] = part(x, n + n * i, n);
    }
    rows
}

// Makes the buffer small sheet x.
fn put_small(sheet: &mut [u8], n: usize, x: u64)
    requires { Loaded n sheet.old × (n ≤ most_small) }
    ensures { sheet.new ≡ store (small_sheet n x) }
{
    Store::put_label(sheet, Label(0), part(x, 0, n));
    Store::put_rows(sheet, Arrow(0), rows_of(x, n));
}

// Judges small sheet x before the edit and after it. The edit is made in the buffer, which then holds another small sheet.
fn turn(sheet: &mut [u8], n: usize, x: u64, book: &[u8], edit: &[u8]) -> Judged
    requires { Loaded n sheet.old × (1 ≤ n) × (n ≤ most_small) × SomeTextsStand n book.now edit.now }
    ensures { Loaded n sheet.new × ((rules : List (Expr rule)) (Z : Edit) → TextsStand n book.now edit.now rules Z → Turned n x rules Z result.before result.next) }
{
    put_small(sheet, n, x);
    let before = judge::holds(sheet, book);
    apply::run_edit(sheet, edit, 0);
    let next = judge::holds(sheet, book);
    Judged { before, next }
}

// Counts one more sheet. Inner: there is room.
#[tactic(auto, unfolding(crate::specs::Counting::tallied))]
fn tally(four: Four, t: Judged) -> Four
    requires { Room four }
    ensures { result ≡ tallied four t.before t.next }
{
    match (t.before, t.next) {
        (true, true) => Four {
            kept: four.kept + 1,
            ..four
        },
        (true, false) => Four {
            lost: four.lost + 1,
            ..four
        },
        (false, true) => Four {
            repaired: four.repaired + 1,
            ..four
        },
        (false, false) => Four {
            broken: four.broken + 1,
            ..four
        },
    }
}

// How many small sheets there are.
fn how_many(n: usize) -> u64
    requires { n ≤ most_small }
    ensures { (result ≡ 2 ^ bits n) × (result ≤ 4096) }
{
    1 << (n + n * n)
}

// Counts them all; the buffer may hold any of them at first.
pub fn count_all(sheet: &mut [u8], n: usize, book: &[u8], edit: &[u8]) -> Four
    requires { Loaded n sheet.old × (1 ≤ n) × (n ≤ most_small) × SomeTextsStand n book.now edit.now }
    ensures { (rules : List (Expr rule)) (Z : Edit) → TextsStand n book.now edit.now rules Z → result ≡ four_counts n rules Z }
{
    let most = how_many(n);
    let mut four = Four::default();
    for x in 0..most {
        four = tally(four, turn(sheet, n, x, book, edit));
    }
    four
}
