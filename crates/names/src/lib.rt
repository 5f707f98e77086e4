// The tokens of a text in words.

#![tactic(auto)]

ghost use Rattle.std.specs.Prelude.{◌≡◌, true, ◌<◌, ◌≤◌, length, get_or};
ghost use Rattle.names.specs.Scan.{is_blank_def, is_mark_byte, is_letter_def};
ghost use Rattle.names.specs.Scanned.{LineEnded, Skipped, WordEnded, Next};

// Where a token starts and ends.
#[derive(Clone, Copy)]
pub struct Span {
    pub from: usize,
    pub to: usize,
}

fn is_blank(b: u8) -> bool
    ensures { result ≡ is_blank_def b }
{
    matches!(b, b' ' | b'\t' | b'\n' | b'\r')
}

fn is_mark(b: u8) -> bool
    ensures { result ≡ is_mark_byte b }
{
    matches!(b, b'(' | b')' | b',')
}

#[tactic(auto, unfolding(crate::specs::Scan::is_letter_def, crate::specs::Scan::class_of))]
fn is_letter(b: u8) -> bool
    ensures { result ≡ is_letter_def b }
{
    !is_blank(b) && b != b'#' && !is_mark(b)
}

// Where the comment at a place ends: at its line feed or with the text. Inner: the place is within the text.
fn line_end(text: &[u8], at: usize) -> usize
    requires { at ≤ length text.now }
    ensures { LineEnded text.now at result }
{
    for p in at..text.len() {
        if text[p] == b'\n' {
            return p;
        }
    }
    text.len()
}

// Where the next token begins; the text's length if there is none. Inner: the place is within the text.
fn skip(text: &[u8], at: usize) -> usize
    requires { at ≤ length text.now }
    ensures { Skipped text.now at result }
{
    let mut p = at;
    while p < text.len() {
        let b = text[p];
        if b == b'#' {
            p = line_end(text, p + 1);
            continue;
        }
        if !is_blank(b) {
            return p;
        }
        p += 1;
    }
    p
}

// Where the word that begins at a place ends. Inner: a word begins there.
fn word_end(text: &[u8], from: usize) -> usize
    requires { (from < length text.now) × (is_letter_def (get_or text.now from 0) ≡ true) }
    ensures { WordEnded text.now from result }
{
    for p in from + 1..text.len() {
        if !is_letter(text[p]) {
            return p;
        }
    }
    text.len()
}

// The next token. Inner: the place is within the text.
// Without one it is empty at the text's length: a place that refusals name, so no plainer as an Option.
pub fn next(text: &[u8], at: usize) -> Span
    requires { at ≤ length text.now }
    ensures { Next text.now at result.from result.to }
{
    let from = skip(text, at);
    if from >= text.len() {
        return Span { from, to: from };
    }
    if is_mark(text[from]) {
        return Span { from, to: from + 1 };
    }
    Span {
        from,
        to: word_end(text, from),
    }
}
