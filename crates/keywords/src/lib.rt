// The notation as tables: the words of its phrases, their codes, and what follows each.

#![tactic(auto)]

ghost use Rattle.std.specs.Prelude.{◌≡◌, ◌<◌, ◌≤◌, ◌==◌, position};
ghost use Rattle.names.specs.Names.{among, notation_words};
ghost use Rattle.notation.specs.Grammar.{phrases};
ghost use Rattle.notation.specs.Parse.{phrase_for_def};
ghost use Rattle.notation.specs.Spell.{phrase_of_def};
ghost use Rattle.keywords.specs.Rows.{slot_of, row_of};
ghost use Rattle.keywords.specs.Phrases.{code_at, InSlot, Picked};

// Slots of a length byte and ten bytes: the words of the phrases of nodes, of arrows, of rules, of steps, in the order of their codes; then the ends of steps.
pub const WIDTH: usize = 11;

pub const WORDS: [u8; 319] = *b"\
    \x03all       \
    \x04none      \
    \x03not       \
    \x03and       \
    \x02or        \
    \x04some      \
    \x05every     \
    \x08at-least  \
    \x07at-most   \
    \x08reversed  \
    \x02or        \
    \x03and       \
    \x07without   \
    \x02to        \
    \x04pair      \
    \x04each      \
    \x0aeach-arrow\
    \x02is        \
    \x06joined    \
    \x03and       \
    \x02or        \
    \x03not       \
    \x04mark      \
    \x06unmark    \
    \x03add       \
    \x04take      \
    \x02if        \
    \x04else      \
    \x03end       ";

// How many phrases there are.
pub const PHRASES: usize = 27;

const CODES: [u8; PHRASES] = *b"\
    \x01\x02\x05\x06\x07\x08\x09\x0a\x0b\
    \x12\x13\x14\x15\x16\x17\
    \x21\x22\x23\x24\x25\x26\x27\
    \x31\x32\x33\x34\x35";

// What follows a word, a byte for each item, the first item in the lowest byte. 01 to 03 are the marks ( , and ); 04 to 06 the name of a label, an arrow,
// a node; 07, 08 the counts of 0A and 0B; 09 nodes, 0A arrows, 0B a rule, 0C steps up to `else`, 0D steps up to `end`, one level deeper; at the word's
// own level 0E steps up to `else`, 0F up to `end`, 10 up to the text's end, 11 a rule. Items stay numbers: each is a byte of a row, and one
// from 09 on, less 9, a place in the tables below, so that an enum would be made of the byte at each read and turned back into a number for them.
const ROWS: [u64; PHRASES] = [
    0x00000000000000, // all
    0x00000000000000, // none
    0x00000000030901, // not ( E )
    0x00000309020901, // and ( E , E )
    0x00000309020901, // or ( E , E )
    0x00000309020A01, // some ( R , E )
    0x00000309020A01, // every ( R , E )
    0x0309020A020701, // at-least ( m , R , E )
    0x0309020A020801, // at-most ( m , R , E )
    0x00000000030A01, // reversed ( R )
    0x0000030A020A01, // or ( R , R )
    0x0000030A020A01, // and ( R , R )
    0x0000030A020A01, // without ( R , R )
    0x00000309020A01, // to ( R , E )
    0x00000306020601, // pair ( i , i )
    0x00000309020901, // each ( E , E )
    0x0000030A020A01, // each-arrow ( R , R )
    0x00000309020601, // is ( i , E )
    0x030A0206020601, // joined ( i , i , R )
    0x0000030B020B01, // and ( K , K )
    0x0000030B020B01, // or ( K , K )
    0x00000000030B01, // not ( K )
    0x000E0309020401, // mark ( k , E ) Z
    0x000E0309020401, // unmark ( k , E ) Z
    0x000E030A020501, // add ( a , R ) Z
    0x000E030A020501, // take ( a , R ) Z
    0x000E0D0C030B01, // if ( K ) P Q Z
];

// For each item that is a thing, from 09 on: the number of its first phrase, and how many it has; then what is added to a step's row so that its
// last item is that of the steps around it.
const FIRST: [usize; 9] = [0, 9, 15, 22, 22, 22, 22, 22, 15];

const COUNT: [usize; 9] = [9, 6, 7, 5, 5, 5, 5, 5, 7];

const TO_END: u64 = 0x010000000000;

const TO_TEXT_END: u64 = 0x020000000000;

const CLOSING: [u64; 9] = [0, 0, 0, 0, TO_END, 0, TO_END, TO_TEXT_END, 0];

// The number of the phrase that a word begins if an item is wanted. Inner: the item is a thing.
pub fn phrase_for(item: usize, word: &[u8]) -> Option<usize>
    requires { (9 ≤ item) × (item < 18) }
    ensures { Picked item (phrase_for_def word.now (phrases (slot_of item))) result }
{
    let i = item - 9;
    let first = FIRST[i];
    let x = buffers::find(&WORDS, WIDTH, first, COUNT[i], word)?;
    Some(first + x)
}

// The first place that has the byte.
fn find(bytes: &[u8], byte: u8) -> Option<usize>
    ensures { result ≡ position (λ b. b == byte) bytes.now }
{
    bytes.iter().position(|b| *b == byte)
}

// The number of the phrase of a code if an item is wanted. Inner: the item is a thing.
pub fn phrase_of(item: usize, code: u8) -> Option<usize>
    requires { (9 ≤ item) × (item < 18) }
    ensures { Picked item (phrase_of_def code (phrases (slot_of item))) result }
{
    let i = item - 9;
    let first = FIRST[i];
    let end = first + COUNT[i];
    let p = find(&CODES[first..end], code)?;
    Some(first + p)
}

// The code of a phrase. Inner: a phrase has that number.
pub fn code_at(p: usize) -> u8
    requires { p < 27 }
    ensures { result ≡ code_at p }
{
    CODES[p]
}

// What follows a phrase if an item is wanted. Inner: the item is a thing, and the phrase is one of its phrases.
pub fn row_of(item: usize, p: usize) -> u64
    requires { InSlot item p }
    ensures { result ≡ row_of item p }
{
    let i = item - 9;
    ROWS[p] + CLOSING[i]
}

// Whether this is a word of the notation.
pub fn is_keyword(word: &[u8]) -> bool
    ensures { result ≡ among word.now notation_words }
{
    let count = PHRASES + 2;
    buffers::find(&WORDS, WIDTH, 0, count, word).is_some()
}
