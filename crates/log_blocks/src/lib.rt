// A log of edits (document 02, item 4), block by block: what a block means for the edit begun before it, and what a replay does with it.

#![tactic(auto)]

ghost use Rattle.std.specs.Prelude.{◌≡◌, List, ℕ, ◌≤◌, ltb, length, take, drop, IfSome, IfOk};
ghost use Rattle.answer.specs.Answers.{result_asked};
ghost use Rattle.answer.specs.Asked.{after};
ghost use Rattle.answer.specs.Outputs.{written_at_start};
ghost use Rattle.seal.specs.Seal.{block_bytes, modulo257};
ghost use Rattle.log_blocks.specs.Log.{is_last, mark_right_def, count, count_right_def, content_bytes, all_zero, fields_right_def, is_begun, ask_log_block, ask_log_end};
ghost use Rattle.log_blocks.specs.Round.{stopped, replay_round, edit_then, said};
ghost use Rattle.log_blocks.specs.Taken.{kept_bytes, kept_behind, ask_taken, taken_length};

use answer::{Answer, Refusal};
use seal::{BLOCK, BODY, Modulo};
use text::Text;

// The length of a block's fields, and the most edit bytes that it holds.
const FIELDS: usize = 4;

const CONTENT: usize = BODY - FIELDS;

// The largest number of a block.
const LAST: usize = 65534;

// How many bytes of an edit are kept: one more than the longest text has, so that a longer edit is recognised by its length.
pub const KEPT: usize = Text::LONGEST + 1;

// What a good block says: its edit goes on or has finished, and that many bytes of it are kept.
#[derive(Clone, Copy)]
enum Taken {
    GoesOn(usize),
    Finished(usize),
}

// What is held between blocks: the number of the next one, and how many bytes of the begun edit are kept. That is the true count: a begun edit has at
// least one byte, so 0 are kept exactly where none is begun.
#[derive(Clone, Copy)]
pub struct Held {
    pub number: usize,
    pub kept: usize,
}

// The result of a round: the line that is due, if one is, and what is held for the next round, nothing where the replay stops.
#[derive(Clone, Copy)]
pub struct Told {
    pub line: Option<[u8; printed::line::BYTES]>,
    pub held: Option<Held>,
}

// How many edit bytes a block says it has. Inner: it is a block.
#[tactic(auto, unfolding(crate::specs::Log::count))]
fn count(block: &[u8]) -> usize
    requires { length block.now ≡ block_bytes }
    ensures value { result ≡ count block.now }
    ensures upper_bound { result ≤ 65535 }
{
    usize::from(u16::from_le_bytes([block[2], block[3]]))
}

// Whether it is its edit's last block. Inner: it is a block.
#[tactic(auto, unfolding(crate::specs::Log::is_last))]
fn is_last(block: &[u8]) -> bool
    requires { length block.now ≡ block_bytes }
    ensures { result ≡ is_last block.now }
{
    matches!(block[1], 2 | 3)
}

// Whether byte 1 is right, given whether an edit is begun.
#[tactic(auto, unfolding(crate::specs::Log::mark_right_def))]
fn mark_right(begun: bool, mark: u8) -> bool
    ensures { result ≡ mark_right_def begun mark }
{
    if begun {
        matches!(mark, 0 | 2)
    } else {
        matches!(mark, 1 | 3)
    }
}

// Whether a count is from 1 to 504, and 504 where more follows.
#[tactic(auto, unfolding(crate::specs::Log::count_right_def))]
fn count_right(last: bool, c: usize) -> bool
    ensures { result ≡ count_right_def last c }
{
    1 <= c && c <= CONTENT && (c == CONTENT || last)
}

// Whether the body has only zeros from a place on. Inner: it is a block, and the place lies in its body or after it.
fn zeros_from(block: &[u8], from: usize) -> bool
    requires { (length block.now ≡ block_bytes) × (from ≤ modulo257.body_bytes) }
    ensures { result ≡ all_zero (drop from (take modulo257.body_bytes block.now)) }
{
    block[from..BODY].iter().all(|&b| b == 0)
}

// Whether a block's fields are right, given whether an edit is begun. Inner: it is a block.
#[tactic(auto, unfolding(crate::specs::Log::fields_right_def, crate::specs::Log::zeros_behind))]
fn fields_right(block: &[u8], begun: bool) -> bool
    requires { length block.now ≡ block_bytes }
    ensures { result ≡ fields_right_def begun block.now }
{
    let c = count(block);
    block[0] == 3
        && mark_right(begun, block[1])
        && count_right(is_last(block), c)
        && zeros_from(block, FIELDS + c)
}

// Puts the edit bytes of a block after the n that are kept, as many as are to be kept, and returns how many are then kept.
// Inner: it is a block, has c edit bytes, and n are kept.
fn keep(block: &[u8], c: usize, n: usize, edit: &mut [u8]) -> usize
    requires { (length block.now ≡ block_bytes) × (c ≡ count block.now) × (c ≤ content_bytes) × (length edit.old ≡ kept_bytes) × (n ≤ kept_bytes) }
    ensures value { result ≡ length (kept_behind (take n edit.old) block.now) }
    ensures edit_after { edit.new ≡ written_at_start (kept_behind (take n edit.old) block.now) edit.old }
{
    let m = c.min(KEPT - n);
    edit[n..n + m].copy_from_slice(&block[FIELDS..FIELDS + m]);
    n + m
}

// Takes the next block of a log, whole or cut short, after n kept bytes of the edit begun before it; n is 0 where none is begun.
// Inner: the buffer has room for what is kept.
fn take_block(block: &[u8], number: usize, n: usize, edit: &mut [u8]) -> Result<Taken, Refusal>
    requires { (length edit.old ≡ kept_bytes) × (n ≤ kept_bytes) }
    ensures result_value { (result_asked result ≡ ask_taken (take n edit.old) number block.now) × IfOk result (λ t. taken_length t ≤ kept_bytes) }
    ensures edit_after { edit.new ≡ after (ask_log_block (is_begun (take n edit.old)) number block.now) (λ _. written_at_start (kept_behind (take n edit.old) block.now) edit.old) edit.old }
{
    if block.len() != BLOCK {
        return Err(Refusal::LogBlock { place: number });
    }
    if !seal::seal_right(Modulo::M257, block) {
        return Err(Refusal::LogSums { place: number });
    }
    if number > LAST || !fields_right(block, n > 0) {
        return Err(Refusal::LogBlock { place: number });
    }
    let m = keep(block, count(block), n, edit);
    if is_last(block) {
        Ok(Taken::Finished(m))
    } else {
        Ok(Taken::GoesOn(m))
    }
}

// The end of a log of that many blocks.
#[tactic(auto, unfolding(crate::specs::Log::ask_log_end, answer::specs::Asked::is))]
fn take_end(blocks: usize, n: usize) -> Result<(), Refusal>
    ensures { result_asked result ≡ ask_log_end (ltb 0 n) blocks }
{
    if n > 0 {
        return Err(Refusal::LogBlock { place: blocks });
    }
    Ok(())
}

// Stops, with the line of a refusal, or with none at a good end.
fn stop(end: Result<(), Refusal>) -> Told
    ensures value { (held : Held) (edit sheet : List ℕ) → said held result edit sheet ≡ stopped (result_asked end) held.number (take held.kept edit) sheet }
    ensures stops { result.held ≡ None }
{
    let line = match end {
        Ok(()) => None,
        Err(r) => Some(printed::line::line_of(Answer::Refused(r))),
    };
    Told { line, held: None }
}

// One round of a replay. What was read of the log is a block, whole or cut short, or nothing at its end. Inner: the buffer has room for what is kept.
pub fn round(block: &[u8], held: Held, edit: &mut [u8], sheet: &mut [u8], book: &[u8]) -> Told
    requires { (length edit.old ≡ kept_bytes) × (held.kept ≤ kept_bytes) }
    ensures sheet_after { said held result edit.new sheet.new ≡ replay_round held.number (take held.kept edit.old) sheet.old book.now block.now }
    ensures kept_le_kept_bytes { IfSome result.held (λ h. h.kept ≤ kept_bytes) }
    ensures edit_after { edit.new ≡ edit_then held.number (take held.kept edit.old) block.now edit.old }
{
    let Held { number, kept } = held;
    if block.is_empty() {
        return stop(take_end(number, kept));
    }
    match take_block(block, number, kept, edit) {
        Err(r) => stop(Err(r)),
        Ok(Taken::GoesOn(n)) => Told {
            line: None,
            held: Some(Held {
                number: number + 1,
                kept: n,
            }),
        },
        Ok(Taken::Finished(n)) => Told {
            line: Some(printed::enter_line(sheet, book, &edit[0..n])),
            held: Some(Held {
                number: number + 1,
                kept: 0,
            }),
        },
    }
}
