// Whether a text names only label 0 and arrow 0. Codes stand one after the other, each with its numbers, so one walk over the bytes finds them all, in
// steps that are made and in those that are not.
ghost use Rattle.std.specs.Prelude.{◌≡◌};
ghost use Rattle.count_small.specs.Walk.{code_shape, number, due_behind, due_next_def, other_named_def, walk};

// What is due at a byte: a code, a number before a code, two of them, or the number of a name.
#[derive(Clone, Copy)]
enum Due {
    Code,
    Number,
    Two,
    Name,
}

// How a code goes on, as in `ends`, and for the codes of edits.
#[tactic(auto, unfolding(crate::specs::Walk::code_shape))]
fn shape(code: u8) -> usize
    ensures { result ≡ code_shape code }
{
    match code {
        0..40 => ends::shape(code),
        0x31..=0x34 => 18,
        _ => 1,
    }
}

// What is due after a code of that shape.
fn due_behind(shape: usize) -> Due
    ensures { number result ≡ due_behind shape }
{
    if shape >= 16 {
        return Due::Name;
    }
    match shape % 4 {
        1 => Due::Code,
        2 => Due::Number,
        3 => Due::Two,
        _ => Due::Name,
    }
}

// What is due after a byte.
#[tactic(auto, unfolding(crate::specs::Walk::due_next_def))]
fn due_next(due: Due, byte: u8) -> Due
    ensures { number result ≡ due_next_def (number due) byte }
{
    match due {
        Due::Code => due_behind(shape(byte)),
        Due::Two => Due::Number,
        Due::Number | Due::Name => Due::Code,
    }
}

fn other_named(due: Due, byte: u8) -> bool
    ensures { result ≡ other_named_def (number due) byte }
{
    matches!(due, Due::Name) && byte != 0
}

pub fn only_first(text: &[u8]) -> bool
    ensures { result ≡ walk 0 text.now }
{
    let mut due = Due::Code;
    for byte in text {
        if other_named(due, *byte) {
            return false;
        }
        due = due_next(due, *byte);
    }
    true
}
