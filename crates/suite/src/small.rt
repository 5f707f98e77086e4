// How many small sheets keep a book before and after an edit.
ghost use Rattle.std.specs.Prelude.{◌≡◌};
ghost use Rattle.answer.specs.Answers.{result_asked};
ghost use Rattle.count_small.specs.Questions.{ask_count, counts_of};
ghost use Rattle.suite.specs.CountNumbers.{count_numbers, four_numbers};

use crate::CountNumbers;
use answer::Refusal;
use count_small::Four;

impl From<Result<Four, Refusal>> for CountNumbers {
    ghost from_gives = { λ counted r. r ≡ four_numbers (result_asked counted) };

    fn from(counted: Result<Four, Refusal>) -> CountNumbers {
        match counted {
            Ok(four) => CountNumbers {
                number: 0,
                place: 0,
                kept: four.kept,
                lost: four.lost,
                repaired: four.repaired,
                broken: four.broken,
            },
            Err(r) => CountNumbers {
                number: r.number(),
                place: r.place(),
                kept: 0,
                lost: 0,
                repaired: 0,
                broken: 0,
            },
        }
    }
}

#[unsafe(no_mangle)]
pub extern "C" fn zamiathen_count(n: usize, book: &[u8], edit: &[u8]) -> CountNumbers
    ensures { result ≡ count_numbers (ask_count n book.now edit.now) (counts_of n book.now edit.now) }
{
    CountNumbers::from(count_small::count(n, book, edit))
}
