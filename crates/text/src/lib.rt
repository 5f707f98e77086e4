// Reading rules, books and edits ("The code" and "The questions, in order" of document 01).

#![tactic(auto)]

ghost use Rattle.std.specs.Prelude.{◌≡◌, min, ◌<◌, ◌≤◌};
ghost use Rattle.logic.specs.Limits.{max_nodes};
ghost use Rattle.text.specs.Patterns.{item_of, pattern_of_def, sort_of_def, pattern_format, limits_of, number_fits, turn_at, stop_answer};
ghost use Rattle.answer.specs.Answers.{asked};
ghost use Rattle.answer.specs.declared.Answer.TheVariants.{Refused};
ghost use Rattle.answer.specs.Asked.{outcome};
ghost use Rattle.text.specs.Reading.{text_limits, former_limits_def, carried_limits_def, longest_carried};
ghost use Rattle.text.specs.Questions.{ask_book, ask_first, ask_rule, ask_edit, ask_rule_end, first_part, rule_start_def};
ghost use Rattle.text.specs.Part.{PartOf};

use answer::{Answer, Refusal};
use logic::{Arrow, Label, Node};

// What stops a reading, and where: 12 to 15 for a book, 22 to 25 for an edit.
#[derive(Clone, Copy)]
pub enum Stop {
    Missing { place: usize },
    WrongSort { place: usize },
    TooDeep { place: usize },
    OutOfRange { place: usize },
}

// The refusals, in a book and in an edit. Two functions, since each case gives a variant of its own: one function would take four constructors.
impl Stop {
    fn in_book(self) -> Refusal
        ensures { asked (Refused result) ≡ stop_answer 10 self }
    {
        match self {
            Stop::Missing { place } => Refusal::BookEnds { place },
            Stop::WrongSort { place } => Refusal::BookCode { place },
            Stop::TooDeep { place } => Refusal::BookLevel { place },
            Stop::OutOfRange { place } => Refusal::BookNumber { place },
        }
    }

    fn in_edit(self) -> Refusal
        ensures { asked (Refused result) ≡ stop_answer 20 self }
    {
        match self {
            Stop::Missing { place } => Refusal::EditEnds { place },
            Stop::WrongSort { place } => Refusal::EditCode { place },
            Stop::TooDeep { place } => Refusal::EditLevel { place },
            Stop::OutOfRange { place } => Refusal::EditNumber { place },
        }
    }
}

// What follows each code, a hexadecimal digit for each item, the first item last. 3 label, 4 arrow, 5 node number; 6, 7 the counts of 0A
// and 0B; 8 nodes, 9 arrows, A rule, B edit, one level deeper; C nodes, D arrows, E rule, F edit, at the code's own level.
// 0 if the byte is not a code. A single `match` with constants, which the compiler turns into a table in read-only memory.
#[tactic(auto, unfolding(crate::specs::Patterns::node_patterns, crate::specs::Patterns::arrow_patterns, crate::specs::Patterns::rule_patterns, crate::specs::Patterns::edit_patterns, crate::specs::Patterns::code_sort, crate::specs::Patterns::pattern_in))]
fn pattern_of(code: u8) -> u32
    ensures { result ≡ pattern_of_def code }
{
    match code {
        0x01 => 0x0000, // all
        0x02 => 0x0000, // none
        0x03 => 0x0003, // k
        0x04 => 0x0005, // i
        0x05 => 0x0008, // E
        0x06 => 0x0088, // E F
        0x07 => 0x0088, // E F
        0x08 => 0x0089, // R E
        0x09 => 0x0089, // R E
        0x0A => 0x0896, // m R E
        0x0B => 0x0897, // m R E
        0x11 => 0x0004, // a
        0x12 => 0x0009, // R
        0x13 => 0x0099, // R S
        0x14 => 0x0099, // R S
        0x15 => 0x0099, // R S
        0x16 => 0x0089, // R E
        0x17 => 0x0055, // i j
        0x21 => 0x0088, // E F
        0x22 => 0x0099, // R S
        0x23 => 0x0085, // i E
        0x24 => 0x0955, // i j R
        0x25 => 0x00AA, // K L
        0x26 => 0x00AA, // K L
        0x27 => 0x000A, // K
        0x30 => 0x0000, // end
        0x31 => 0x0F83, // k E Z
        0x32 => 0x0F83, // k E Z
        0x33 => 0x0F94, // a R Z
        0x34 => 0x0F94, // a R Z
        0x35 => 0xFBBA, // K P Q Z
        _ => 0,
    }
}

// The digits of a rule and of an edit at the code's own level.
const RULE: u32 = 0xE;

const EDIT: u32 = 0xF;

// The sort of a code, as the digit of an item at the code's own level.
#[tactic(auto, unfolding(crate::specs::Patterns::code_sort, crate::specs::Patterns::sort_digit))]
fn sort_of(code: u8) -> u32
    ensures { result ≡ sort_of_def code }
{
    match code {
        0x01..=0x0B => 0xC,
        0x11..=0x17 => 0xD,
        0x21..=0x27 => 0xE,
        0x30..=0x35 => 0xF,
        _ => 0,
    }
}

// The limits of a reading: the longest text, the last level, and the ranges of numbers. Nodes are below `nodes`; the count of an 0A is from
// `from` to `to`, that of an 0B at most `most`. The struct fills two words, so that calls pass it in registers.
#[derive(Clone, Copy)]
struct Limits {
    nodes: usize,
    longest: u32,
    deepest: u8,
    from: u8,
    to: u8,
    most: u8,
}

// Whether a number byte is in the range of its kind. Inner: the item is a number.
#[tactic(auto, unfolding(crate::specs::Patterns::number_fits, crate::specs::Patterns::item_of, crate::specs::Patterns::items))]
fn in_range(limits: Limits, kind: u32, x: u8) -> bool
    requires { (3 ≤ kind) × (kind < 8) }
    ensures { result ≡ number_fits (limits_of limits).numbers (item_of kind) x }
{
    match kind {
        3 => x < Text::LABELS,
        4 => x < Text::ARROWS,
        5 => (x as usize) < limits.nodes,
        6 => limits.from <= x && x <= limits.to,
        _ => x <= limits.most,
    }
}

// Reads a thing whose first code is at level 1, byte by byte along the patterns of its codes: `pattern` is what remains of the code at `level`,
// `patterns` what remains of those above it. Takes 512 bytes of stack, however deep the text.
// Inner: the sort wanted is a digit from C to F.
fn read(text: &[u8], limits: Limits, wanted: u32, at: usize) -> Result<usize, Stop>
    requires { (12 ≤ wanted) × (wanted < 16) }
    ensures { result ≡ turn_at text.now (limits_of limits) (pattern_format wanted 1) at }
{
    let mut patterns = [0u16; 256];
    let mut level: usize = 0;
    let mut pattern = wanted - 4;
    let mut p = at;
    loop {
        let item = pattern % 16;
        if item < 3 {
            if level == 0 {
                return Ok(p);
            }
            level -= 1;
            pattern = patterns[level] as u32;
        } else if text.len() <= p {
            return Err(Stop::Missing { place: p });
        } else if item < 8 {
            if in_range(limits, item, text[p]) {
                pattern = pattern / 16;
                p += 1;
            } else {
                return Err(Stop::OutOfRange { place: p });
            }
        } else {
            let code = text[p];
            if sort_of(code) != 12 + item % 4 {
                return Err(Stop::WrongSort { place: p });
            }
            let next = pattern_of(code);
            if item >= 12 {
                pattern = next;
                p += 1;
            } else if level >= limits.deepest as usize {
                return Err(Stop::TooDeep { place: p });
            } else {
                patterns[level] = (pattern / 16) as u16;
                level += 1;
                pattern = next;
                p += 1;
            }
        }
    }
}

// The limits of a book or an edit for n nodes; of a stored book, where a count may be any byte; of a carried rule.
fn limits_for(n: usize) -> Limits
    ensures { limits_of result ≡ text_limits n }
{
    Limits {
        nodes: n,
        longest: Text::LONGEST as u32,
        deepest: Text::DEEPEST,
        from: Text::LEAST_FROM,
        to: Text::LEAST_TO,
        most: Text::MOST_TO,
    }
}

fn former_limits(n: usize) -> Limits
    ensures { limits_of result ≡ former_limits_def n }
{
    Limits {
        from: 0,
        to: 255,
        most: 255,
        ..limits_for(n)
    }
}

fn carried_limits(n: usize) -> Limits
    ensures { limits_of result ≡ carried_limits_def n }
{
    Limits {
        longest: Text::LONGEST_CARRIED as u32,
        deepest: Text::DEEPEST_CARRIED,
        ..limits_for(n)
    }
}

// Is the book within the limits? 11 to 16.
fn book_within(book: &[u8], limits: Limits) -> Answer
    ensures { asked result ≡ outcome (ask_book (limits_of limits) book.now) }
{
    if book.len() > limits.longest as usize {
        return Answer::Refused(Refusal::BookLength { place: 0 });
    }
    let mut p = 0;
    for _ in 0..Text::RULES {
        if p >= book.len() {
            return Answer::Done;
        }
        match read(book, limits, RULE, p) {
            Ok(next) => p = next,
            Err(stop) => return Answer::Refused(stop.in_book()),
        }
    }
    if p < book.len() {
        return Answer::Refused(Refusal::BookRules { place: p });
    }
    Answer::Done
}

// Is the text one rule within the limits, with nothing after it? 11 to 16.
fn rule_within(text: &[u8], limits: Limits) -> Answer
    ensures { asked result ≡ outcome (ask_rule (limits_of limits) text.now) }
{
    if text.len() > limits.longest as usize {
        return Answer::Refused(Refusal::BookLength { place: 0 });
    }
    match read(text, limits, RULE, 0) {
        Ok(p) if p != text.len() => Answer::Refused(Refusal::BookRules { place: p }),
        Ok(_) => Answer::Done,
        Err(stop) => Answer::Refused(stop.in_book()),
    }
}

// Does the text begin with a rule within the limits? 11 to 15.
fn first_within(text: &[u8], limits: Limits) -> Answer
    ensures { asked result ≡ outcome (ask_first (limits_of limits) text.now) }
{
    if text.len() > limits.longest as usize {
        return Answer::Refused(Refusal::BookLength { place: 0 });
    }
    match read(text, limits, RULE, 0) {
        Ok(_) => Answer::Done,
        Err(stop) => Answer::Refused(stop.in_book()),
    }
}

// The calls that read texts, and their limits. Each call reads its text once.
#[derive(Clone, Copy)]
pub struct Text;

impl Text {
    // length of a book or an edit
    pub const LONGEST: usize = 4096;
    // the last level
    pub const DEEPEST: u8 = 32;
    // length and last level of a carried book or rule
    pub const LONGEST_CARRIED: usize = 16384;

    pub const DEEPEST_CARRIED: u8 = 255;
    // rules in a book
    pub const RULES: usize = 32;
    // label numbers, arrow numbers and, where there is no sheet, node numbers are below these
    pub const LABELS: u8 = Label::COUNT;

    pub const ARROWS: u8 = Arrow::COUNT;

    pub const NODES: usize = Node::MAX as usize;
    // the least and greatest count of an 0A, and the greatest of an 0B
    pub const LEAST_FROM: u8 = 1;

    pub const LEAST_TO: u8 = Node::MAX;

    pub const MOST_TO: u8 = Node::MAX - 1;

    // Is the book within the limits for n nodes? 11 to 16.
    pub fn check_book(book: &[u8], n: usize) -> Answer
        ensures { asked result ≡ outcome (ask_book (text_limits n) book.now) }
    {
        let limits = limits_for(n);
        book_within(book, limits)
    }

    // Is the book within the limits by the former ranges, which allow any count? 11 to 16, n as 60. For the rewriter of stored books.
    pub fn check_former_book(book: &[u8]) -> Answer
        ensures { asked result ≡ outcome (ask_book (former_limits_def max_nodes) book.now) }
    {
        let limits = former_limits(Text::NODES);
        book_within(book, limits)
    }

    // Is the text one rule, with nothing after it? 11 to 16.
    pub fn check_rule(text: &[u8], n: usize) -> Answer
        ensures { asked result ≡ outcome (ask_rule (text_limits n) text.now) }
    {
        let limits = limits_for(n);
        rule_within(text, limits)
    }

    // Is the text one carried rule? 11 to 16 by the limits of a carried book, n as 60.
    pub fn check_carried_rule(text: &[u8]) -> Answer
        ensures { asked result ≡ outcome (ask_rule (carried_limits_def max_nodes) text.now) }
    {
        let limits = carried_limits(Text::NODES);
        rule_within(text, limits)
    }

    // Is the edit within the limits for n nodes? 21 to 26.
    pub fn check_edit(edit: &[u8], n: usize) -> Answer
        ensures { asked result ≡ outcome (ask_edit (text_limits n) edit.now) }
    {
        let limits = limits_for(n);
        if edit.len() > limits.longest as usize {
            return Answer::Refused(Refusal::EditLength { place: 0 });
        }
        match read(edit, limits, EDIT, 0) {
            Ok(p) if p != edit.len() => Answer::Refused(Refusal::EditExtra { place: p }),
            Ok(_) => Answer::Done,
            Err(stop) => Answer::Refused(stop.in_edit()),
        }
    }

    // The first rule of a text, as a part of that text; when refused, an empty part at its start. n is 60.
    pub fn first_rule(text: &[u8]) -> &[u8]
        ensures { PartOf text.entry (first_part text.now) result }
    {
        let limits = limits_for(Text::NODES);
        if text.len() > limits.longest as usize {
            return &text[0..0]; // 11
        }
        let Ok(p) = read(text, limits, RULE, 0) else {
            return &text[0..0]; // 12 to 15
        };
        &text[0..p]
    }

    // The answer that goes with `first_rule`: 11 to 15.
    pub fn first_rule_answer(text: &[u8]) -> Answer
        ensures { asked result ≡ outcome (ask_rule_end text.now) }
    {
        let limits = limits_for(Text::NODES);
        first_within(text, limits)
    }

    // Does the text begin with a carried rule, for n nodes? 11 to 15.
    pub fn check_first_carried(text: &[u8], n: usize) -> Answer
        ensures { asked result ≡ outcome (ask_first (carried_limits_def n) text.now) }
    {
        let limits = carried_limits(n);
        first_within(text, limits)
    }

    // How much of a text to look at for its first rule: no carried rule is longer.
    pub fn looked_at(length: usize) -> usize
        ensures { result ≡ min length longest_carried }
    {
        length.min(Text::LONGEST_CARRIED)
    }

    // Where rule i of a book, from 0, starts: after i rules; the book's length if there are fewer rules or they cannot be read.
    // No rule starts at the book's end, so reading stops there too.
    pub fn rule_start(book: &[u8], n: usize, i: usize) -> usize
        ensures { result ≡ rule_start_def (text_limits n) i book.now }
    {
        let limits = limits_for(n);
        let mut p = 0;
        for _ in 0..i {
            let Ok(next) = read(book, limits, RULE, p) else {
                return book.len();
            };
            p = next;
        }
        p
    }
}
