// Dispatcher against disruption (item 13 of document 02): can the dispatcher force the goal, and by which first move?

#![tactic(auto)]

ghost use Rattle.std.specs.Prelude.{◌≡◌, IfErr};
ghost use Rattle.play.specs.Questions.{ask_play, faulty_edit};
ghost use Rattle.play.specs.Standing.{found_asked};

pub mod questions;
pub mod search;

use questions::AtEdit;
use search::{Found, Lists};

// Finds the dispatcher's first move: the edits' texts stand one after the other in `edits`, `lengths` has the length of each, and the first `dispatchers`
// are the dispatcher's. A refusal comes with the edit that it is about.
pub fn play(
    sheet: &[u8],
    book: &[u8],
    goal: &[u8],
    edits: &[u8],
    lengths: &[usize],
    dispatchers: usize,
    moves: usize,
) -> Result<Found, AtEdit>
    ensures value { found_asked result ≡ ask_play sheet.now book.now goal.now edits.now lengths.now dispatchers moves }
    ensures edit_value { IfErr result (λ e. e.edit ≡ faulty_edit sheet.now book.now goal.now edits.now lengths.now dispatchers moves) }
{
    questions::ask(sheet, book, goal, edits, lengths, dispatchers, moves)?;
    let lists = Lists {
        ours: dispatchers,
        second: questions::behind(edits, dispatchers),
        theirs: lengths.len() - dispatchers,
    };
    Ok(search::search(sheet, book, goal, edits, lists, true, moves))
}
