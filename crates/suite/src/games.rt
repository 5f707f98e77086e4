// Dispatcher against disruption.
ghost use Rattle.std.specs.Prelude.{◌≡◌};
ghost use Rattle.play.specs.Questions.{ask_play, faulty_edit};
ghost use Rattle.suite.specs.Games.{play_numbers, found_numbers};

use play::questions::AtEdit;
use play::search::Found;

// Number and place; the outcome, 0 can't, 1 an edit, 2 a pass, 3 after a refusal; and an edit by its place in the list, from 0: the first move, or the
// edit that 21 to 26, 31 or 32 is about; else 0.
#[repr(C)]
#[derive(Clone, Copy)]
pub struct PlayNumbers {
    pub number: usize,
    pub place: usize,
    pub outcome: usize,
    pub edit: usize,
}

// The numbers of an outcome.
fn outcome_numbers(outcome: usize, edit: usize) -> PlayNumbers
    ensures { result ≡ record { number = 0; place = 0; outcome = outcome; edit = edit } }
{
    PlayNumbers {
        number: 0,
        place: 0,
        outcome,
        edit,
    }
}

impl From<Result<Found, AtEdit>> for PlayNumbers {
    ghost from_gives = { λ played r. r ≡ found_numbers played };

    fn from(played: Result<Found, AtEdit>) -> PlayNumbers {
        match played {
            Ok(Found::Cannot) => outcome_numbers(0, 0),
            Ok(Found::Edit(i)) => outcome_numbers(1, i),
            Ok(Found::Pass) => outcome_numbers(2, 0),
            Err(e) => PlayNumbers {
                number: e.refusal.number(),
                place: e.refusal.place(),
                outcome: 3,
                edit: e.edit,
            },
        }
    }
}

#[unsafe(no_mangle)]
pub extern "C" fn zamiathen_play(
    sheet: &[u8],
    book: &[u8],
    goal: &[u8],
    edits: &[u8],
    lengths: &[usize],
    dispatchers: usize,
    moves: usize,
) -> PlayNumbers
    ensures { result ≡ play_numbers (ask_play sheet.now book.now goal.now edits.now lengths.now dispatchers moves)
        (faulty_edit sheet.now book.now goal.now edits.now lengths.now dispatchers moves) }
{
    PlayNumbers::from(play::play(sheet, book, goal, edits, lengths, dispatchers, moves))
}
