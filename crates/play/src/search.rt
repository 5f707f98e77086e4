// The search of a game: the side to move tries its edits one by one, each on a copy of the sheet, and the other side goes on from there.
ghost use Rattle.std.specs.Prelude.{◌≡◌, ◌-◌, ◌<◌, length};
ghost use Rattle.logic.specs.Syntax.{Edit};
ghost use Rattle.logic.specs.Limits.{ranges};
ghost use Rattle.sheet.specs.Sheet.{sheet_bytes, graph_of};
ghost use Rattle.sheet.specs.Questions.{Sound};
ghost use Rattle.text.specs.Stands.{EditStands, SomeEditStands};
ghost use Rattle.judge.specs.Judging.{RulesStand, SomeRulesStand};
ghost use Rattle.game.specs.Game.{Game, may_leave_def};
ghost use Rattle.game.specs.Search.{side_of, goes_well_def, chosen};
ghost use Rattle.play.specs.Standing.{count_of, start_of, GameStands, SomeGame, OnCopy, outcome_of};

use sheet::Sheet;

// The edits of both sides stand one after the other: how many the dispatcher has, where the disruption's start, and how many those are.
#[derive(Clone, Copy)]
pub struct Lists {
    pub ours: usize,
    pub second: usize,
    pub theirs: usize,
}

// The move of a side: the lowest-numbered edit that serves it, or a pass that does.
#[derive(Clone, Copy)]
pub enum Found {
    Cannot,
    Edit(usize),
    Pass,
}

// How many edits a side has (ours are the dispatcher's), and where they start.
fn count_of(lists: Lists, ours: bool) -> usize
    ensures { result ≡ count_of lists ours }
{
    if ours { lists.ours } else { lists.theirs }
}

fn start_of(lists: Lists, ours: bool) -> usize
    ensures { result ≡ start_of lists ours }
{
    if ours { 0 } else { lists.second }
}

// Whether a side may leave this sheet. Inner, as all below: the sheet is sound, and the texts were read for its n. Enter would answer done exactly when
// the book holds on the sheet that the steps leave (Theorem 4.2), once 31 and 32 have passed: so the dispatcher's edit is made on the copy first,
// and nothing is carried back.
#[tactic(auto, unfolding(game::specs::Game::may_leave_def))]
fn may_leave(sheet: &[u8], book: &[u8], ours: bool) -> bool
    requires { Sound sheet.now × SomeRulesStand (ranges (graph_of sheet.now).n) book.now 0 (length book.now) }
    ensures { (G : Game) → RulesStand (ranges (graph_of sheet.now).n) book.now 0 (length book.now) G.book
        → result ≡ may_leave_def G (side_of ours) (graph_of sheet.now) }
{
    !ours || judge::holds(sheet, book)
}

// Makes the edit that stands at `at` on a copy of the sheet; returns the place after it.
fn make(sheet: &[u8], edits: &[u8], at: usize, copy: &mut [u8]) -> usize
    requires { Sound sheet.now × SomeEditStands (ranges (graph_of sheet.now).n) edits.now at × (length copy.old ≡ sheet_bytes) }
    ensures { Sound copy.new × ((Z : Edit) → EditStands (ranges (graph_of sheet.now).n) edits.now at Z → OnCopy at Z result sheet.now copy.new) }
{
    copy.copy_from_slice(sheet);
    apply::run_edit(copy, edits, at)
}

// The side's move, with that many moves left. An edit that serves ends the search; one sheet for each move is on the stack.
#[cycle(goes_well_search)]
pub fn search(
    sheet: &[u8],
    book: &[u8],
    goal: &[u8],
    edits: &[u8],
    lists: Lists,
    ours: bool,
    moves: usize,
) -> Found
    requires { Sound sheet.now × SomeGame (graph_of sheet.now).n book.now goal.now edits.now lists × (0 < moves) }
    ensures { (G : Game) → GameStands (graph_of sheet.now).n book.now goal.now edits.now lists G
        → outcome_of result ≡ chosen G (moves - 1) ours (graph_of sheet.now) }
{
    let count = count_of(lists, ours);
    let mut at = start_of(lists, ours);
    let mut copy = [0u8; Sheet::BYTES];
    let mut made = false;
    for i in 0..count {
        at = make(sheet, edits, at, &mut copy);
        if may_leave(&copy, book, ours) {
            if goes_well(&copy, book, goal, edits, lists, ours, moves - 1) {
                return Found::Edit(i);
            }
            made = true;
        }
    }
    if !made && goes_well(sheet, book, goal, edits, lists, ours, moves - 1) {
        return Found::Pass;
    }
    Found::Cannot
}

// Whether things go well for the side that has just moved, with that many moves left: at the end by the goal, before it when no move serves the other side.
#[cycle(goes_well_search)]
fn goes_well(
    sheet: &[u8],
    book: &[u8],
    goal: &[u8],
    edits: &[u8],
    lists: Lists,
    ours: bool,
    moves: usize,
) -> bool
    requires { Sound sheet.now × SomeGame (graph_of sheet.now).n book.now goal.now edits.now lists }
    ensures { (G : Game) → GameStands (graph_of sheet.now).n book.now goal.now edits.now lists G
        → result ≡ goes_well_def G moves ours (graph_of sheet.now) }
{
    if moves == 0 {
        return judge::holds(sheet, goal) == ours;
    }
    matches!(
        search(sheet, book, goal, edits, lists, !ours, moves),
        Found::Cannot
    )
}
