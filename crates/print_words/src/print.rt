// Prints codes as words, along the rows of what follows each.
ghost use Rattle.std.specs.Prelude.{◌≡◌, [], ◌∷◌, ◌<◌, ◌≤◌, T, length};
ghost use Rattle.logic.specs.Limits.{ranges, max_nodes, fits};
ghost use Rattle.text.specs.Reading.{longest_carried, most_rules};
ghost use Rattle.names.specs.Names.{Naming};
ghost use Rattle.notation.specs.Spell.{bare, opens};
ghost use Rattle.notation.specs.Words.{rule_limits};
ghost use Rattle.buffers.specs.Slots.{Slots};
ghost use Rattle.buffers.specs.Filled.{filled_from};
ghost use Rattle.keywords.specs.Rows.{mark_of, kind_of, slot_of, row_goals};
ghost use Rattle.name_table.specs.NameSlots.{name_width, name_count, Holds};
ghost use Rattle.print_words.specs.Printable.{Printable};
ghost use Rattle.print_words.specs.Printed.{printed};
ghost use Rattle.print_words.specs.Opening.{words_at, IsWord, Opening};
ghost use Rattle.print_words.specs.Added.{Room, Added};

use crate::RULE;
use lay_words::{Before, Laid};

// What a code writes first, and the row of what follows it: `word` is the slot of its word among those of the notation, if it has one.
#[derive(Clone, Copy)]
struct Opened {
    word: Option<usize>,
    row: u64,
}

const ELSE: usize = keywords::PHRASES;

const END: usize = keywords::PHRASES + 1;

// The rows of one item: the name of a label, of an arrow, of a node.
const LABEL: u64 = 0x04;

const ARROW: u64 = 0x05;

const NODE: u64 = 0x06;

// The marks, in the order of their items.
const MARKS: [u8; 3] = *b"(,)";

// What a code without a phrase writes first. Inner: the item is a thing.
fn bare(item: usize, code: u8) -> Opened
    requires { (9 ≤ item) × (item < 18) }
    ensures { Opening (λ d. bare (slot_of item) code) result }
{
    match item {
        9 => {
            if code == 0x03 {
                Opened {
                    word: None,
                    row: LABEL,
                }
            } else {
                Opened {
                    word: None,
                    row: NODE,
                }
            }
        }
        10 => Opened {
            word: None,
            row: ARROW,
        },
        12 | 14 => Opened {
            word: Some(ELSE),
            row: 0,
        },
        13 | 15 => Opened {
            word: Some(END),
            row: 0,
        },
        _ => Opened { word: None, row: 0 },
    }
}

// What a code writes first if an item is wanted. Inner: the item is a thing.
fn opens(item: usize, code: u8) -> Opened
    requires { (9 ≤ item) × (item < 18) }
    ensures { Opening (λ d. opens (slot_of item) d code) result }
{
    let Some(p) = keywords::phrase_of(item, code) else {
        return bare(item, code);
    };
    Opened {
        word: Some(p),
        row: keywords::row_of(item, p),
    }
}

// Inner: the item is a mark, and one more token does not overflow.
fn put_mark(output: &mut [u8], state: Laid, item: usize) -> Laid
    requires { Room state × (1 ≤ item) × (item < 4) }
    ensures { Added state (mark_of item ∷ []) result output.old output.new }
{
    let at = item - 1;
    lay_words::put_token(output, state, &MARKS[at..item])
}

// Inner: the item is a name or a count, the number is in its range, and one more token does not overflow.
fn put_number(table: &[u8], item: usize, x: u8, output: &mut [u8], state: Laid) -> Laid
    requires { Slots name_width name_count table.now × (4 ≤ item) × (item < 9) × T (fits (ranges max_nodes) (kind_of item) x) × Room state }
    ensures { (name : Naming) → Holds table.now name → Added state (name (kind_of item) x ∷ []) result output.old output.new }
{
    let name = name_table::name_of(table, item, x as usize);
    lay_words::put_token(output, state, name)
}

// Inner: a word has that number, if there is one, and one more token does not overflow.
fn put_word(output: &mut [u8], state: Laid, word: Option<usize>) -> Laid
    requires { Room state × IsWord word }
    ensures { Added state (words_at word) result output.old output.new }
{
    let Some(word) = word else {
        return state;
    };
    let token = buffers::slot(&keywords::WORDS, keywords::WIDTH, word);
    lay_words::put_token(output, state, token)
}

// Prints codes, as far as there is room, and returns the length of their text: `row` is what remains of the row of `level`, `rows` of those above it.
// Inner: the codes can be printed, and the table holds names.
pub fn print(table: &[u8], codes: &[u8], start: u64, rules: usize, output: &mut [u8]) -> usize
    requires { Slots name_width name_count table.now × Printable rule_limits codes.now (row_goals start 1) rules × (length codes.now ≤ longest_carried) × (start < 18) × (rules ≤ most_rules) }
    ensures value { (name : Naming) → Holds table.now name → result ≡ length (printed name codes.now start rules) }
    ensures output_after { (name : Naming) → Holds table.now name → output.new ≡ filled_from 0 (printed name codes.now start rules) output.old }
{
    let mut rows = [0u64; 256];
    let mut level: usize = 1;
    let mut row = start;
    let mut left = rules;
    let mut at = 0;
    let mut state = Laid {
        size: 0,
        before: Before::Start,
        brackets: 0,
        ifs: 0,
    };
    loop {
        let item = (row % 256) as usize;
        if row == 0 {
            if level > 1 {
                level -= 1;
                row = rows[level];
            } else if left == 0 || at >= codes.len() {
                return lay_words::put_end(output, state);
            } else {
                left -= 1;
                row = RULE;
            }
        } else if item < 4 {
            state = put_mark(output, state, item);
            row /= 256;
        } else if item < 9 {
            state = put_number(table, item, codes[at], output, state);
            row /= 256;
            at += 1;
        } else {
            let opened = opens(item, codes[at]);
            state = put_word(output, state, opened.word);
            if item < 14 {
                rows[level] = row / 256;
                level += 1;
            }
            row = opened.row;
            at += 1;
        }
    }
}
