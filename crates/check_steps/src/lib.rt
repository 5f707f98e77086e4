// Shorter conditions from a partner's tool (item 11 of document 02): changes a carried rule step by step and compares it with the text sent.

#![tactic(auto)]

ghost use Rattle.std.specs.Prelude.{◌≡◌, ◌+◌, ◌*◌, ◌<◌, ◌≤◌, length};
ghost use Rattle.answer.specs.Answers.{asked};
ghost use Rattle.answer.specs.Outputs.{written_at_start};
ghost use Rattle.text.specs.Reading.{longest_carried};
ghost use Rattle.ends.specs.Shapes.{shape_of};
ghost use Rattle.shortening.specs.Questions.{ask_same, ask_check};
ghost use Rattle.check_steps.specs.Raised.{next_numbers_def, raised_byte_def, raised, lowered, next_wanted_def, behind_at, again_at, contrary_at, right_of_def, right_at, with_byte, step_length, step_leaves, found_at};
ghost use Rattle.check_steps.specs.Steps.{RuleIs, SomeRuleIs, Stepped};
ghost use Rattle.logic.specs.Syntax.{Expr, rule};

use answer::{Answer, Refusal};
use text::Text;

// The first byte of each law's left side, by the law's number; the second if it is fixed, else 0.
// No code is 0, so the rows stay bytes: as Options they read no plainer, and each test would unwrap one.
const FIRST: [u8; 9] = [0, 0x05, 0x06, 0x07, 0x06, 0x07, 0x06, 0x27, 0x26];

const SECOND: [u8; 9] = [0, 0x05, 0, 0, 0, 0x01, 0x01, 0x27, 0];

// The shape of a code, 0 if the byte is not a code.
fn shape_of(code: u8) -> usize
    ensures { result ≡ shape_of code }
{
    if code < 40 { ends::shape(code) } else { 0 }
}

// How many numbers are due after a byte, if `numbers` are due at it.
fn next_numbers(numbers: usize, byte: u8) -> usize
    ensures { result ≡ next_numbers_def numbers byte }
{
    if 0 < numbers {
        numbers - 1
    } else {
        (shape_of(byte) % 4 + 3) % 4
    }
}

// What a byte becomes: a number is raised by 128, so that it is not taken for a code.
fn raised_byte(numbers: usize, byte: u8) -> u8
    ensures { result ≡ raised_byte_def numbers byte }
{
    if 0 < numbers { byte % 128 + 128 } else { byte }
}

// Writes a text at the work's start with its numbers raised.
// Inner: callers leave room for it.
fn raise_numbers(text: &[u8], work: &mut [u8])
    requires { length text.now ≤ length work.old }
    ensures { work.new ≡ written_at_start (raised 0 text.now) work.old }
{
    let mut numbers = 0;
    for (p, &byte) in text.iter().enumerate() {
        work[p] = raised_byte(numbers, byte);
        numbers = next_numbers(numbers, byte);
    }
}

// The expressions still wanted after a byte: a code is one of them and adds its operands.
// Inner: a text wants too few for the sum to overflow.
fn next_wanted(numbers: usize, wanted: usize, byte: u8) -> usize
    requires { (0 < numbers + wanted) × (wanted ≤ 65536) }
    ensures { result ≡ next_wanted_def numbers wanted byte }
{
    if 0 < numbers {
        wanted
    } else {
        wanted - 1 + shape_of(byte) / 4 % 4
    }
}

// The place after the expression at `at`.
// Inner: the work text has at most 16,384 bytes.
fn behind(text: &[u8], at: usize) -> usize
    requires { (at ≤ length text.now) × (length text.now ≤ longest_carried) }
    ensures { result ≡ behind_at text.now at }
{
    let mut numbers = 0;
    let mut wanted = 1;
    for p in at..text.len() {
        if numbers + wanted == 0 {
            return p;
        }
        let byte = text[p];
        wanted = next_wanted(numbers, wanted, byte);
        numbers = next_numbers(numbers, byte);
    }
    text.len()
}

// Where the expression behind the byte at `at` occurs again, `gap` bytes after its end.
// Inner: the work text has at most 16,384 bytes, and a gap is 0 or 1.
fn again(text: &[u8], at: usize, gap: usize) -> Option<usize>
    requires { (at + 1 ≤ length text.now) × (length text.now ≤ longest_carried) × (gap ≤ 1) }
    ensures { result ≡ found_at (again_at text.now (at + 1) gap) }
{
    let first = at + 1;
    let end = behind(text, first);
    let n = end - first;
    let second = end + gap;
    if second + n > text.len() {
        return None;
    }
    if text[first..first + n] != text[second..second + n] {
        return None;
    }
    Some(second)
}

// One less than the place where 06 E 05 E at `at` ends.
// Inner: the work text has at most 16,384 bytes, and E begins within it.
fn contrary(text: &[u8], at: usize) -> Option<usize>
    requires { (at + 1 ≤ length text.now) × (length text.now ≤ longest_carried) }
    ensures { result ≡ found_at (contrary_at text.now at) }
{
    let second = again(text, at, 1)?;
    if text[second - 1] != 0x05 {
        return None;
    }
    Some(second + (second - (at + 2)) - 1)
}

// Where the right side of a law begins, if the law's first bytes are at `at` and the rest of its left side follows.
// Inner: the work text has at most 16,384 bytes, and the law is one of the eight.
fn right_of(text: &[u8], at: usize, law: usize) -> Option<usize>
    requires { (at + 3 ≤ length text.now) × (length text.now ≤ longest_carried) × (law ≤ 8) }
    ensures { result ≡ found_at (right_of_def text.now at law) }
{
    match law {
        4 => contrary(text, at),
        5 => Some(behind(text, at + 2) - 1),
        _ if SECOND[law] == 0 => again(text, at, 0),
        _ => Some(at + 2),
    }
}

// The same, with the first bytes checked.
// Inner: the work text has at most 16,384 bytes.
fn right_side(text: &[u8], at: usize, law: usize) -> Option<usize>
    requires { (at ≤ 65535) × (length text.now ≤ longest_carried) }
    ensures { result ≡ found_at (right_at text.now at law) }
{
    if at + 3 > text.len() || law > 8 || text[at] != FIRST[law] {
        return None;
    }
    if SECOND[law] != 0 && text[at + 1] != SECOND[law] {
        return None;
    }
    right_of(text, at, law)
}

// Puts the byte that law 4 or 5 makes at the start of its right side.
// Inner: the place is in the text.
#[tactic(auto, unfolding(crate::specs::Raised::with_byte))]
fn put_byte(text: &mut [u8], from: usize, law: usize)
    requires { from < length text.old }
    ensures { text.new ≡ with_byte text.old from law }
{
    match law {
        4 => text[from] = 0x02,
        5 => text[from] = 0x01,
        _ => {}
    }
}

// Makes a step and returns the new length of the text. What follows the right side moves down; the bytes left over at the end stay.
// Inner: the work text has at most 16,384 bytes.
fn make_step(text: &mut [u8], at: usize, law: usize) -> Option<usize>
    requires { (at ≤ 65535) × (length text.old ≤ longest_carried) }
    ensures value { result ≡ found_at (step_length text.old at law) }
    ensures text_after { text.new ≡ step_leaves text.old at law }
{
    let from = right_side(text, at, law)?;
    put_byte(text, from, law);
    text.copy_within(from.., at);
    Some(text.len() - (from - at))
}

// A step's offset, from its bytes.
fn offset(low: u8, high: u8) -> usize
    ensures { (result ≡ low + 256 * high) × (result ≤ 65535) }
{
    usize::from(u16::from_le_bytes([low, high]))
}

// Makes the steps one after the other: the length of the text after all of them, or the first step that is cut, unknown or does not fit.
// Work bytes after the text do not matter.
// Inner: the work text begins with a rule of this length.
fn make_steps(work: &mut [u8], length: usize, steps: &[u8]) -> Result<usize, usize>
    requires { SomeRuleIs work.old length }
    ensures { (K : Expr rule) → RuleIs work.old length K → Stepped K steps.now result work.new }
{
    let mut len = length;
    for i in 0..steps.len().div_ceil(3) {
        let p = 3 * i;
        if steps.len() - p < 3 {
            return Err(i);
        }
        let at = offset(steps[p], steps[p + 1]);
        let law = usize::from(steps[p + 2]);
        let Some(next) = make_step(&mut work[0..len], at, law) else {
            return Err(i);
        };
        len = next;
    }
    Ok(len)
}

// Is the text, with its numbers lowered, the one sent? 60.
fn compare(text: &[u8], sent: &[u8]) -> Answer
    ensures { asked result ≡ ask_same (lowered text.now) sent.now 0 }
{
    let n = text.len().min(sent.len());
    for i in 0..n {
        if text[i] % 128 != sent[i] {
            return Answer::Refused(Refusal::TextSent { place: i });
        }
    }
    if text.len() != sent.len() {
        return Answer::Refused(Refusal::TextSent { place: n });
    }
    Answer::Done
}

// Is the text sent what the steps make of the carried rule? 11 to 16 for the rule, 59 for the steps, 60 for the text sent. The work text is on
// the stack. At most 8,191 steps fit, and each moves down what follows it.
pub fn check_steps(rule: &[u8], steps: &[u8], sent: &[u8]) -> Answer
    ensures { asked result ≡ ask_check rule.now steps.now sent.now }
{
    let answer = Text::check_carried_rule(rule);
    if let Answer::Refused(_) = answer {
        return answer;
    }
    let mut work = [0u8; Text::LONGEST_CARRIED];
    raise_numbers(rule, &mut work);
    match make_steps(&mut work, rule.len(), steps) {
        Ok(len) => compare(&work[0..len], sent),
        Err(step) => Answer::Refused(Refusal::LawStep { place: step }),
    }
}
