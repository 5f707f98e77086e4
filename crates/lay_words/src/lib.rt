// Lays out tokens as text: one line for each rule or step.

#![tactic(auto)]

ghost use Rattle.std.specs.Prelude.{◌≡◌, ◌||◌, cond, [], ◌+◌, ◌-◌, ◌*◌, ◌^◌, ◌<◌, length, replicate};
ghost use Rattle.names.specs.Token.{same};
ghost use Rattle.notation.specs.Grammar.{else_word, end_word};
ghost use Rattle.notation.specs.Layout.{is_mark_def, brackets, ifs, after_token, lay};
ghost use Rattle.buffers.specs.Filled.{filled_from};
ghost use Rattle.lay_words.specs.Laying.{before_of, lead, piece, After};

// What comes before the next token: nothing, an opening bracket, another token.
#[derive(Clone, Copy)]
pub enum Before {
    Start,
    Opened,
    Other,
}

// How far the text has come: its length, what comes before the next token, and how many brackets and how many `if`s are open there.
#[derive(Clone, Copy)]
pub struct Laid {
    pub size: usize,
    pub before: Before,
    pub brackets: usize,
    pub ifs: usize,
}

fn is_mark(token: &[u8]) -> bool
    ensures { result ≡ is_mark_def token.now }
{
    buffers::same(token, b"(") || buffers::same(token, b",") || buffers::same(token, b")")
}

fn before_after(token: &[u8]) -> Before
    ensures { before_of result ≡ after_token token.now }
{
    if buffers::same(token, b"(") {
        Before::Opened
    } else {
        Before::Other
    }
}

// Inner: one more bracket fits into a usize.
fn brackets_after(count: usize, token: &[u8]) -> usize
    requires { count + 1 < 2 ^ 64 }
    ensures { result ≡ brackets count token.now }
{
    if buffers::same(token, b"(") {
        count + 1
    } else if buffers::same(token, b")") {
        count.saturating_sub(1)
    } else {
        count
    }
}

// Inner: one more `if` fits into a usize.
fn ifs_after(count: usize, opened: usize, token: &[u8]) -> usize
    requires { count + 1 < 2 ^ 64 }
    ensures { result ≡ ifs opened count token.now }
{
    if opened != 0 {
        count
    } else if buffers::same(token, b"if") {
        count + 1
    } else if buffers::same(token, b"end") {
        count.saturating_sub(1)
    } else {
        count
    }
}

// How many `if`s a word's line is inside: `else` and `end` are aligned with their `if`.
fn ifs_around(count: usize, token: &[u8]) -> usize
    ensures { result ≡ cond (same token.now else_word || same token.now end_word) (count - 1) count }
{
    if buffers::same(token, b"else") || buffers::same(token, b"end") {
        count.saturating_sub(1)
    } else {
        count
    }
}

// Writes blanks, as far as there is room, and returns where they end. Inner: that place fits into a usize.
fn put_blanks(output: &mut [u8], at: usize, count: usize) -> usize
    requires { at + count < 2 ^ 64 }
    ensures value { result ≡ at + count }
    ensures output_after { output.new ≡ filled_from at (replicate count 0x20) output.old }
{
    let from = at.min(output.len());
    let to = (at + count).min(output.len());
    output[from..to].fill(b' ');
    at + count
}

// Writes what comes before a token, as far as there is room, and returns where it ends. Inner: that place fits into a usize.
fn put_lead(output: &mut [u8], state: Laid, token: &[u8]) -> usize
    requires { state.size + 2 * state.ifs + 1 < 2 ^ 64 }
    ensures value { result ≡ state.size + length (lead state token.now) }
    ensures output_after { output.new ≡ filled_from state.size (lead state token.now) output.old }
{
    if let Before::Start = state.before {
        return state.size;
    }
    if is_mark(token) {
        return state.size;
    }
    if state.brackets == 0 {
        let at = buffers::put(output, state.size, b"\n");
        return put_blanks(output, at, 2 * ifs_around(state.ifs, token));
    }
    if let Before::Opened = state.before {
        return state.size;
    }
    buffers::put(output, state.size, b" ")
}

// Writes a token with the blanks or the line feed before it, as far as there is room. Inner: the lengths fit into a usize.
pub fn put_token(output: &mut [u8], state: Laid, token: &[u8]) -> Laid
    requires { (state.size + 2 * state.ifs + 2 + length token.now < 2 ^ 64) × (state.brackets + 1 < 2 ^ 64) × (state.ifs + 1 < 2 ^ 64) }
    ensures after { After state token.now result }
    ensures output_after { output.new ≡ filled_from state.size (piece state token.now) output.old }
{
    let at = put_lead(output, state, token);
    Laid {
        size: buffers::put(output, at, token),
        before: before_after(token),
        brackets: brackets_after(state.brackets, token),
        ifs: ifs_after(state.ifs, state.brackets, token),
    }
}

// Writes the line feed after the last token and returns the length of the text. Inner: the length fits into a usize.
pub fn put_end(output: &mut [u8], state: Laid) -> usize
    requires { state.size + 1 < 2 ^ 64 }
    ensures value { result ≡ state.size + length (lay (before_of state.before) state.brackets state.ifs []) }
    ensures output_after { output.new ≡ filled_from state.size (lay (before_of state.before) state.brackets state.ifs []) output.old }
{
    if let Before::Start = state.before {
        return state.size;
    }
    buffers::put(output, state.size, b"\n")
}
