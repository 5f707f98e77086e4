// Tables of names: checks them and puts the names into slots, where they are looked up.

#![tactic(auto)]

ghost use Rattle.std.specs.Prelude.{◌≡◌, List, [], ◌++◌, ◌+◌, ◌*◌, ◌<◌, ◌≤◌, T, length, replicate};
ghost use Rattle.answer.specs.Asked.{outcome};
ghost use Rattle.answer.specs.Answers.{asked, result_asked};
ghost use Rattle.logic.specs.Limits.{ranges, max_nodes, fits};
ghost use Rattle.names.specs.Names.{Naming, Entry, ask_names, decimal, width, begins_plain_def, free_name_def};
ghost use Rattle.notation.specs.Parse.{number_of};
ghost use Rattle.notation.specs.Words.{word_limits};
ghost use Rattle.buffers.specs.Slots.{Slots, put_slot_def, found_option};
ghost use Rattle.keywords.specs.Rows.{kind_of};
ghost use Rattle.name_table.specs.NameSlots.{name_width, name_count, table_bytes, Holds, Held};
ghost use Rattle.name_table.specs.Entries.{Partly, Begun, Filled, Turned, Read, free_number, slot_found, item_of, name_byte, well_spelled};

use answer::{Answer, Refusal};

// The length of all slots together.
pub const BYTES: usize = 12025;

// A slot is a length byte and 64 bytes.
const WIDTH: usize = 65;

// How many slots labels, arrows and nodes have; those of counts follow.
const NAMES: usize = 124;

// By item, from item 4 on: the slot of number 0, the least number, and how many numbers there are. Items are the bytes of the rows in keywords, so
// they stay numbers.
const BASE: [usize; 5] = [0, 48, 64, 124, 124];

const LEAST: [usize; 5] = [0, 0, 0, 1, 0];

const COUNT: [usize; 5] = [48, 16, 60, 60, 60];

// How many digits a number below 1,000 has.
fn width(x: usize) -> usize
    ensures { result ≡ width x }
{
    if x < 10 {
        return 1;
    }
    if x < 100 {
        return 2;
    }
    3
}

// Puts a plain name into a slot: a beginning and a number. Inner: the table has the slot, and the name fits into 8 bytes.
fn put_plain(table: &mut [u8], i: usize, start: &[u8], x: usize)
    requires { (name_width * i + name_width ≤ length table.old) × (length start.now ≤ 6) × (x < 100) }
    ensures { table.new ≡ put_slot_def name_width table.old i (start.now ++ decimal x) }
{
    let mut name = [0u8; 8];
    let from = start.len();
    name[..from].copy_from_slice(start);
    let to = from + width(x);
    decimal::write_digits(&mut name[from..to], x);
    buffers::put_slot(table, WIDTH, i, &name[..to]);
}

// Puts a plain name, a beginning and the number from 0 on, into each empty one of `count` slots from number `base` on.
// Inner: the table has those slots, and the names fit into them.
fn fill(table: &mut [u8], base: usize, count: usize, start: &[u8])
    requires { Slots name_width name_count table.old × (base + count ≤ name_count) × (count ≤ 100) × (length start.now ≤ 6) }
    ensures { Filled base count start.now table.old table.new }
{
    for x in 0..count {
        let slot = base + x;
        let head = WIDTH * slot;
        if table[head] == 0 {
            put_plain(table, slot, start, x);
        }
    }
}

// Whether a name may have this byte.
#[tactic(auto, unfolding(crate::specs::Entries::name_byte, names::specs::Scan::is_letter_def, names::specs::Scan::class_of))]
fn is_name_byte(b: u8) -> bool
    ensures { result ≡ name_byte b }
{
    b >= 0x21 && !matches!(b, 0x7F | b'#' | b'(' | b')' | b',')
}

// Whether this is a word with the bytes and the length of a name.
fn is_spelled(word: &[u8]) -> bool
    ensures { result ≡ well_spelled word.now }
{
    word.len() != 0 && word.len() <= 64 && word.iter().all(|b| is_name_byte(*b))
}

// Whether a word begins as plain names do.
fn begins_plain(word: &[u8]) -> bool
    ensures { result ≡ begins_plain_def word.now }
{
    word.starts_with(b"label:") || word.starts_with(b"arrow:") || word.starts_with(b"node:")
}

// Whether a further entry may give this name, the slots holding the earlier ones.
fn free_name(table: &[u8], word: &[u8]) -> bool
    requires { Slots name_width name_count table.now }
    ensures { (es : List Entry) → Partly es table.now → result ≡ free_name_def es word.now }
{
    is_spelled(word)
        && !keywords::is_keyword(word)
        && !begins_plain(word)
        && buffers::find(table, WIDTH, 0, NAMES, word).is_none()
}

// The item that a word of the table stands for.
fn item_of(word: &[u8]) -> Option<usize>
    ensures { result ≡ item_of word.now }
{
    if buffers::same(word, b"label") {
        return Some(4);
    }
    if buffers::same(word, b"arrow") {
        return Some(5);
    }
    if buffers::same(word, b"node") {
        return Some(6);
    }
    None
}

// The slot of the number that a word says, if it has no name yet. Inner: the item is a name.
fn free_slot(table: &[u8], item: usize, word: &[u8]) -> Option<usize>
    requires { Slots name_width name_count table.now × (4 ≤ item) × (item < 7) }
    ensures { (es : List Entry) → Partly es table.now → result ≡ slot_found (kind_of item) (free_number es (kind_of item) word.now) }
{
    let k = item - 4;
    let x = buffers::find(table, WIDTH, NAMES, COUNT[k], word)?;
    let slot = BASE[k] + x;
    let head = WIDTH * slot;
    if table[head] != 0 {
        return None;
    }
    Some(slot)
}

// Reads the entry at a place into its slot, and returns where it ends; none if no entry is left. A missing token is an empty word, neither a number nor
// a name. Inner: the place is within the text, and the slots hold the entries so far.
fn read_entry(text: &[u8], at: usize, table: &mut [u8]) -> Result<Option<usize>, Refusal>
    requires { (at ≤ length text.now) × Begun table.old }
    ensures { (es : List Entry) → Partly es table.old → Turned text.now at es table.new result }
{
    let sort = names::next(text, at);
    if sort.from >= text.len() {
        return Ok(None);
    }
    let Some(item) = item_of(&text[sort.from..sort.to]) else {
        return Err(Refusal::NameTable { place: sort.from });
    };
    let number = names::next(text, sort.to);
    let Some(slot) = free_slot(table, item, &text[number.from..number.to]) else {
        return Err(Refusal::NameTable { place: number.from });
    };
    let name = names::next(text, number.to);
    let word = &text[name.from..name.to];
    if !free_name(table, word) {
        return Err(Refusal::NameTable { place: name.from });
    }
    buffers::put_slot(table, WIDTH, slot, word);
    Ok(Some(name.to))
}

// Reads a table's entries. Inner: the slots hold the counts and no names.
fn read_entries(text: &[u8], table: &mut [u8]) -> Result<(), Refusal>
    requires { Partly [] table.old }
    ensures result_value { result_asked result ≡ outcome (ask_names text.now) }
    ensures read { Read (ask_names text.now) table.new }
{
    let mut at = 0;
    while let Some(to) = read_entry(text, at, table)? {
        at = to;
    }
    Ok(())
}

// Checks a table of names and puts the names into slots. Inner: the slots have their full length and are all zero.
pub fn read_names(text: &[u8], table: &mut [u8]) -> Result<(), Refusal>
    requires { table.old ≡ replicate table_bytes 0 }
    ensures result_value { result_asked result ≡ outcome (ask_names text.now) }
    ensures held { Held (ask_names text.now) table.new }
{
    fill(table, NAMES, 61, b"");
    read_entries(text, table)?;
    fill(table, 0, 48, b"label:");
    fill(table, 48, 16, b"arrow:");
    fill(table, 64, 60, b"node:");
    Ok(())
}

// The number in range that a word names or counts if an item is wanted. Inner: the item is a name or a count.
pub fn number_of(table: &[u8], item: usize, word: &[u8]) -> Option<u8>
    requires { Slots name_width name_count table.now × (4 ≤ item) × (item < 9) }
    ensures { (name : Naming) → Holds table.now name → result ≡ found_option (number_of name word_limits (kind_of item) word.now) }
{
    let k = item - 4;
    let least = LEAST[k];
    let x = buffers::find(table, WIDTH, BASE[k] + least, COUNT[k], word)?;
    Some((least + x) as u8)
}

// The name of a number, or a count in decimal. Inner: the item is a name or a count, and the number is in its range.
pub fn name_of(table: &[u8], item: usize, x: usize) -> &[u8]
    requires { Slots name_width name_count table.now × (4 ≤ item) × (item < 9) × T (fits (ranges max_nodes) (kind_of item) x) }
    ensures { (name : Naming) → Holds table.now name → result.now ≡ name (kind_of item) x }
{
    let k = item - 4;
    buffers::slot(table, WIDTH, BASE[k] + x)
}

// Is this a table of names? 63.
pub fn check_names(text: &[u8]) -> Answer
    ensures { asked result ≡ outcome (ask_names text.now) }
{
    let mut table = [0u8; BYTES];
    match read_names(text, &mut table) {
        Ok(()) => Answer::Done,
        Err(r) => Answer::Refused(r),
    }
}
