// Plans to come back to: a store of a head block and seven sheets, under the names 1 to 7.

#![tactic(auto)]

ghost use Rattle.std.specs.Prelude.{◌≡◌, true, ◌+◌, ◌-◌, ◌*◌, ◌<◌, ◌≤◌, length, get_or};
ghost use Rattle.answer.specs.Answers.{asked};
ghost use Rattle.logic.specs.Steps.{update};
ghost use Rattle.bitset.specs.Words.{set_of, member};
ghost use Rattle.seal.specs.Seal.{block_bytes};
ghost use Rattle.sheet.specs.Sheet.{sheet_bytes};
ghost use Rattle.sheet.specs.Questions.{Sound};
ghost use Rattle.sheet.specs.Masks.{zeros_at};
ghost use Rattle.plan_store.specs.Store.{plan_count, store_bytes, place_start, head_block};
ghost use Rattle.plan_store.specs.Questions.{head_right_def, place_right_def, ask_store, ask_name_def, ask_filled_def, ask_kept, ask_blank_store, ask_keep, ask_return, ask_drop};
ghost use Rattle.plan_store.specs.Calls.{blank_store_def, kept_store, dropped_store, returned_sheet};

use answer::{Answer, Refusal};
use seal::Modulo;
use sheet::Sheet;
use std::ops::Range;
use text::Text;

// How many names there are.
pub const NAMES: usize = 7;

// The length of a store in bytes.
pub const BYTES: usize = Sheet::BLOCK + NAMES * Sheet::BYTES;

// Whether that many words from `at` on are all zero: combined, with one test at the end. Inner: they are there.
fn zeros(s: &[u8], at: usize, count: usize) -> bool
    requires { at + 8 * count ≤ length s.now }
    ensures { result ≡ zeros_at s.now at (8 * count) }
{
    let mut all = 0;
    for j in 0..count {
        all |= bitset::load(s, at + 8 * j);
    }
    all == 0
}

// Whether the head block is right. Inner: it is a block.
fn head_right(head: &[u8]) -> bool
    requires { length head.now ≡ block_bytes }
    ensures { result ≡ head_right_def head.now }
{
    if head[0] != 4 || head[1] >= 128 || head[506] != 0 || head[507] != 0 {
        return false;
    }
    zeros(head, 2, 63) && seal::seal_right(Modulo::M257, head)
}

// Where a place lies in a store.
fn place_range(place: usize) -> Range<usize>
    requires { place < plan_count }
    ensures { (result.start ≡ place_start place) × (result.end ≡ place_start place + sheet_bytes) }
{
    let from = Sheet::BLOCK + Sheet::BYTES * place;
    from..from + Sheet::BYTES
}

// Whether the place is a sound sheet, or all zero. Inner: the store is whole, and has that place.
fn place_right(store: &[u8], place: usize) -> bool
    requires { (length store.now ≡ store_bytes) × (place < plan_count) }
    ensures { result ≡ place_right_def store.now place }
{
    let at = place_range(place);
    if bitset::member(u64::from(store[1]), place) {
        matches!(Sheet::check(&store[at]), Answer::Done)
    } else {
        zeros(store, at.start, Sheet::BYTES / 8)
    }
}

// 55 for a store, of any bytes.
pub fn check(store: &[u8]) -> Answer
    ensures { asked result ≡ ask_store store.now }
{
    if store.len() != BYTES || !head_right(&store[0..Sheet::BLOCK]) {
        return Answer::Refused(Refusal::StoreBytes { place: 0 });
    }
    for i in 0..NAMES {
        if !place_right(store, i) {
            return Answer::Refused(Refusal::StoreBytes { place: 0 });
        }
    }
    Answer::Done
}

// 55 and 56.
fn ask_name(store: &[u8], name: usize) -> Answer
    ensures { asked result ≡ ask_name_def store.now name }
{
    let sound = check(store);
    let Answer::Done = sound else {
        return sound;
    };
    if name < 1 || name > NAMES {
        return Answer::Refused(Refusal::PlanName { place: 0 });
    }
    Answer::Done
}

// 55 to 57.
fn ask_filled(store: &[u8], name: usize) -> Answer
    ensures { asked result ≡ ask_filled_def store.now name }
{
    let named = ask_name(store, name);
    let Answer::Done = named else {
        return named;
    };
    if bitset::member(u64::from(store[1]), name - 1) {
        return Answer::Done;
    }
    Answer::Refused(Refusal::PlanUnfilled { place: 0 })
}

// The names with that of a place, or without it. Inner: they are names, and the place is one of theirs.
fn with_name(names: u64, place: usize, used: bool) -> u64
    requires { (names < 128) × (place < plan_count) }
    ensures { (result ≡ set_of plan_count (update (member names) place used)) × (result < 256) }
{
    let one = bitset::only(place);
    if used {
        bitset::either(names, one)
    } else {
        bitset::minus(names, one)
    }
}

// Puts a name into the head block, or takes it out. Inner: the head is right.
fn put_name(head: &mut [u8], place: usize, used: bool)
    requires { (length head.old ≡ block_bytes) × (head_right_def head.old ≡ true) × (place < plan_count) }
    ensures { head.new ≡ head_block (set_of plan_count (update (member (get_or head.old 1 0)) place used)) }
{
    head[1] = with_name(u64::from(head[1]), place, used) as u8;
    seal::seal(head);
}

// Makes the buffer a store with no name filled, or leaves it as it is.
pub fn blank_store(store: &mut [u8]) -> Answer
    ensures result_value { asked result ≡ ask_blank_store (length store.old) }
    ensures store_after { store.new ≡ blank_store_def store.old }
{
    if store.len() != BYTES {
        return Answer::Refused(Refusal::StoreBytes { place: 0 });
    }
    bitset::wipe(store);
    store[0] = 4;
    seal::seal(&mut store[0..Sheet::BLOCK]);
    Answer::Done
}

// Keeps the sheet under a name, or leaves the store as it is. Nothing is judged.
pub fn keep(sheet: &[u8], store: &mut [u8], name: usize) -> Answer
    ensures result_value { asked result ≡ ask_keep sheet.now store.old name }
    ensures store_after { store.new ≡ kept_store sheet.now store.old name }
{
    let sound = Sheet::check(sheet);
    let Answer::Done = sound else {
        return sound;
    };
    let named = ask_name(store, name);
    let Answer::Done = named else {
        return named;
    };
    let place = name - 1;
    store[place_range(place)].copy_from_slice(sheet);
    put_name(&mut store[0..Sheet::BLOCK], place, true);
    Answer::Done
}

// Drops what a name holds, or leaves the store as it is.
pub fn drop_plan(store: &mut [u8], name: usize) -> Answer
    ensures result_value { asked result ≡ ask_drop store.old name }
    ensures store_after { store.new ≡ dropped_store store.old name }
{
    let held = ask_filled(store, name);
    let Answer::Done = held else {
        return held;
    };
    let place = name - 1;
    bitset::wipe(&mut store[place_range(place)]);
    put_name(&mut store[0..Sheet::BLOCK], place, false);
    Answer::Done
}

// Reads the present book with a kept sheet's n and judges it on that sheet. Inner: the kept sheet is sound.
fn judge_kept(kept: &[u8], book: &[u8]) -> Answer
    requires { Sound kept.now }
    ensures { asked result ≡ ask_kept kept.now book.now }
{
    let rules = Text::check_book(book, Sheet::node_count(kept));
    let Answer::Done = rules else {
        return rules;
    };
    let verdict = judge::judge_rules(kept, book, book.len());
    verdict.answer
}

// Makes the sheet the one kept under a name, or leaves it as it is. The kept sheet is judged where it stands in the store.
pub fn return_to(sheet: &mut [u8], store: &[u8], name: usize, book: &[u8]) -> Answer
    ensures result_value { asked result ≡ ask_return sheet.old store.now name book.now }
    ensures sheet_after { sheet.new ≡ returned_sheet sheet.old store.now name book.now }
{
    let sound = Sheet::check(sheet);
    let Answer::Done = sound else {
        return sound;
    };
    let held = ask_filled(store, name);
    let Answer::Done = held else {
        return held;
    };
    let kept = &store[place_range(name - 1)];
    let judged = judge_kept(kept, book);
    let Answer::Done = judged else {
        return judged;
    };
    sheet.copy_from_slice(kept);
    Answer::Done
}
