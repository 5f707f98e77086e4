// Reads books and edits in words.

#![tactic(auto)]

ghost use Rattle.std.specs.Prelude.{◌≡◌, Ok, Err, cond, List, [], ◌∷◌, ◌⊎◌, ℕ, ◌+◌, ◌^◌, ◌<◌, ◌≤◌, eqb, length};
ghost use Rattle.answer.specs.Asked.{passed};
ghost use Rattle.answer.specs.Answers.{result_asked, refusal_number_def, refusal_place_def};
ghost use Rattle.answer.specs.Outputs.{written_length, written_output};
ghost use Rattle.names.specs.Token.{same};
ghost use Rattle.names.specs.Names.{Naming};
ghost use Rattle.notation.specs.Words.{word_limits, parse_text, ask_book_from_words, ask_edit_from_words, rule_in_words_def};
ghost use Rattle.buffers.specs.Slots.{Slots};
ghost use Rattle.buffers.specs.Filled.{filled_from};
ghost use Rattle.keywords.specs.Rows.{mark_of, row_goals};
ghost use Rattle.name_table.specs.NameSlots.{name_width, name_count, Holds};
ghost use Rattle.read_words.specs.Meeting.{alone_met, closed_met, wrong_number, bytes_of, Meets, MeetsBare};
ghost use Rattle.read_words.specs.FromWords.{ask_from_words};

use answer::Refusal;
use text::Text;

// What a token begins if an item is wanted: `size` bytes of codes, and a row that must follow.
#[derive(Clone, Copy)]
struct Met {
    size: usize,
    first: u8,
    second: u8,
    row: u64,
}

// The rows of one item: steps up to the text's end; a rule.
const EDIT: u64 = 0x10;

const RULE: u64 = 0x11;

// The last level.
const DEEPEST: usize = Text::DEEPEST as usize;

// Whether this is the mark wanted. Inner: the item is a mark.
fn is_mark(item: usize, word: &[u8]) -> bool
    requires { (1 ≤ item) × (item < 4) }
    ensures { result ≡ same word.now (mark_of item) }
{
    let marks = *b"(,)";
    let from = item - 1;
    buffers::same(word, &marks[from..item])
}

// A token with nothing after it.
fn alone(size: usize, first: u8, second: u8) -> Met
    ensures { result ≡ alone_met size first second }
{
    Met {
        size,
        first,
        second,
        row: 0,
    }
}

// The end of steps, if the word is the one that ends them.
fn closed(ended: bool) -> Option<Met>
    ensures { result ≡ closed_met ended }
{
    if ended { Some(alone(1, 0x30, 0)) } else { None }
}

// What a word begins that begins no phrase: just a name, which stands for the code of its sort and its number, or the end of steps.
// Inner: the table holds names, and the item is a thing.
fn bare(table: &[u8], item: usize, word: &[u8]) -> Option<Met>
    requires { Slots name_width name_count table.now × (9 ≤ item) × (item < 18) }
    ensures { MeetsBare table.now item word.now result }
{
    match item {
        9 => {
            if let Some(label) = name_table::number_of(table, 4, word) {
                return Some(alone(2, 0x03, label));
            }
            let node = name_table::number_of(table, 6, word)?;
            Some(alone(2, 0x04, node))
        }
        10 => {
            let arrow = name_table::number_of(table, 5, word)?;
            Some(alone(2, 0x11, arrow))
        }
        12 | 14 => closed(buffers::same(word, b"else")),
        13 | 15 => closed(buffers::same(word, b"end")),
        _ => None,
    }
}

// What a word begins if a thing is wanted. Inner: the table holds names, and the item is a thing.
fn begin(table: &[u8], item: usize, word: &[u8]) -> Option<Met>
    requires { Slots name_width name_count table.now × (9 ≤ item) × (item < 18) }
    ensures { Meets table.now item word.now result }
{
    let Some(p) = keywords::phrase_for(item, word) else {
        return bare(table, item, word);
    };
    Some(Met {
        size: 1,
        first: keywords::code_at(p),
        second: 0,
        row: keywords::row_of(item, p),
    })
}

// What a token begins if an item is wanted. Inner: the table holds names, and the item exists.
fn meet(table: &[u8], item: usize, word: &[u8]) -> Option<Met>
    requires { Slots name_width name_count table.now × (1 ≤ item) × (item < 18) }
    ensures { Meets table.now item word.now result }
{
    if item < 4 {
        if !is_mark(item, word) {
            return None;
        }
        return Some(alone(0, 0, 0));
    }
    if item < 9 {
        let x = name_table::number_of(table, item, word)?;
        return Some(alone(1, x, 0));
    }
    begin(table, item, word)
}

// Why a token that begins nothing is refused.
fn wrong(item: usize, place: usize) -> Refusal
    ensures { (refusal_number_def result ≡ wrong_number item) × (refusal_place_def result ≡ place) }
{
    if item < 4 {
        return Refusal::WordsMark { place };
    }
    if item < 9 {
        return Refusal::WordsNumber { place };
    }
    Refusal::WordsStart { place }
}

// Writes the bytes of a token from a place on, as far as there is room, and returns where they end. Inner: that place fits into a usize.
fn put_codes(codes: &mut [u8], at: usize, m: Met) -> usize
    requires { (m.size ≤ 2) × (at + m.size < 2 ^ 64) }
    ensures value { result ≡ at + m.size }
    ensures codes_after { codes.new ≡ filled_from at (bytes_of m) codes.old }
{
    let both = [m.first, m.second];
    let size = m.size;
    buffers::put(codes, at, &both[..size])
}

// The answer if the text ends and an item is wanted: steps up to the text's end get their 30 there. Inner: the next place fits into a usize.
fn end_of_text(item: usize, place: usize, codes: &mut [u8], size: usize) -> Result<usize, Refusal>
    requires { size + 1 < 2 ^ 64 }
    ensures value { result ≡ cond (eqb item 16) (Ok (size + 1)) (Err (Refusal.WordsEnd place)) }
    ensures codes_after { item ≡ 16 → codes.new ≡ filled_from size (0x30 ∷ []) codes.old }
{
    if item != EDIT as usize {
        return Err(Refusal::WordsEnd { place });
    }
    Ok(buffers::put(codes, size, b"\x30"))
}

// Reads words along the rows of their phrases: `row` is what remains of the row of `level`, `rows` what remains of those above it. Writes the codes as far
// as there is room and answers their length. When words are refused, nothing is said about what `codes` holds.
// Inner: the table holds names, and a book or an edit is wanted.
fn read(
    table: &[u8],
    words: &[u8],
    start: u64,
    rules: usize,
    codes: &mut [u8],
) -> Result<usize, Refusal>
    requires { Slots name_width name_count table.now × ((start ≡ 0) ⊎ (start ≡ 16)) × (rules ≤ 32) }
    ensures result_value { (name : Naming) → Holds table.now name → result_asked result ≡ written_length (parse_text word_limits name words.now (row_goals start 1) rules) }
    ensures codes_after { (name : Naming) → Holds table.now name → (bytes : List ℕ) → parse_text word_limits name words.now (row_goals start 1) rules ≡ passed bytes
        → codes.new ≡ filled_from 0 bytes codes.old }
{
    let mut rows = [0u64; 33];
    let mut level: usize = 1;
    let mut row = start;
    let mut left = rules;
    let mut at = 0;
    let mut size = 0;
    loop {
        if row == 0 {
            if level > 1 {
                level -= 1;
                row = rows[level];
                continue;
            }
            let token = names::next(words, at);
            if token.from >= words.len() {
                return Ok(size);
            }
            if left == 0 {
                return Err(Refusal::WordsRules { place: token.from });
            }
            left -= 1;
            row = RULE;
            continue;
        }
        let token = names::next(words, at);
        let from = token.from;
        let to = token.to;
        let item = (row % 256) as usize;
        if from >= words.len() {
            return end_of_text(item, from, codes, size);
        }
        let Some(m) = meet(table, item, &words[from..to]) else {
            return Err(wrong(item, from));
        };
        size = put_codes(codes, size, m);
        at = to;
        if item < 9 {
            row /= 256;
            continue;
        }
        if item < 14 {
            if level >= DEEPEST {
                return Err(Refusal::WordsLevel { place: from });
            }
            rows[level] = row / 256;
            level += 1;
        }
        row = m.row;
    }
}

// Reads words, given their first row and how many rules may follow it, into codes at the output's start: 63, 64 to 70, 33. The answer is their length.
// Inner: a book or an edit is wanted.
fn from_words(
    names: &[u8],
    words: &[u8],
    start: u64,
    rules: usize,
    output: &mut [u8],
) -> Result<usize, Refusal>
    requires { ((start ≡ 0) ⊎ (start ≡ 16)) × (rules ≤ 32) }
    ensures result_value { result_asked result ≡ written_length (ask_from_words start rules names.now words.now (length output.old)) }
    ensures output_after { output.new ≡ written_output (ask_from_words start rules names.now words.now (length output.old)) output.old }
{
    let mut table = [0u8; name_table::BYTES];
    name_table::read_names(names, &mut table)?;
    let mut codes = [0u8; Text::LONGEST];
    let size = read(&table, words, start, rules, &mut codes)?;
    if size > Text::LONGEST {
        return Err(Refusal::WordsLength { place: size });
    }
    if output.len() < size {
        return Err(Refusal::OutputLength { place: size });
    }
    buffers::put(output, 0, &codes[..size]);
    Ok(size)
}

// Reads the words of a book into codes: 63, 64 to 70, 33. The answer is their length.
pub fn book_from_words(names: &[u8], words: &[u8], output: &mut [u8]) -> Result<usize, Refusal>
    ensures result_value { result_asked result ≡ written_length (ask_book_from_words names.now words.now (length output.old)) }
    ensures output_after { output.new ≡ written_output (ask_book_from_words names.now words.now (length output.old)) output.old }
{
    from_words(names, words, 0, Text::RULES, output)
}

// The same for an edit.
pub fn edit_from_words(names: &[u8], words: &[u8], output: &mut [u8]) -> Result<usize, Refusal>
    ensures result_value { result_asked result ≡ written_length (ask_edit_from_words names.now words.now (length output.old)) }
    ensures output_after { output.new ≡ written_output (ask_edit_from_words names.now words.now (length output.old)) output.old }
{
    from_words(names, words, EDIT, 0, output)
}

// The place of a rule's first word in the words of a book, with rules counted from 0: where reading refuses a book that may have only the rules before it.
// The words' length if there is no such rule, an earlier rule cannot be read, or the table is wrong.
pub fn rule_in_words(names: &[u8], words: &[u8], rule: usize) -> usize
    ensures { result ≡ rule_in_words_def names.now words.now rule }
{
    if rule >= Text::RULES {
        return words.len();
    }
    let mut table = [0u8; name_table::BYTES];
    if let Err(_) = name_table::read_names(names, &mut table) {
        return words.len();
    }
    let mut codes = [0u8; 1];
    if let Err(r) = read(&table, words, 0, rule, &mut codes) {
        if r.number() == 69 {
            return r.place();
        }
    }
    words.len()
}
