// Adds an expression of a text to the numbers.
ghost use Rattle.std.specs.Prelude.{◌≡◌, ◌≤◌, length};
ghost use Rattle.tree.specs.Tree.{Tree};
ghost use Rattle.tree.specs.Sizes.{beyond};
ghost use Rattle.ends.specs.Shapes.{At, Some};
ghost use Rattle.measure.specs.State.{Scanned, numbers};

use super::numbers;

// Adds `w` copies of the expression at `at`, their first codes on level `v`, to the numbers, without their length; returns the place after it.
// The last operand is reached in a loop: only the first of two is a call. A code above others does not raise the deepest level, so `rise` is for the last.
// One body serves every code. Inner: the text was read before.
pub fn scan(text: &[u8], at: usize, w: u16, v: u16, state: &mut [u16]) -> usize
    requires { Some text.now at × (v ≤ beyond) × (length state.old ≡ numbers) }
    ensures { (t : Tree) → At text.now at t → Scanned at w v t result state.old state.new }
{
    let mut p = at;
    let mut level = v;
    let mut s = ends::shape(text[p]);
    // while there are operands; a name's 18 has none
    while s % 16 >= 4 {
        p += s % 4;
        level = numbers::deeper(level);
        if s >= 8 {
            p = scan(text, p, w, level, state);
        }
        s = ends::shape(text[p]);
    }
    numbers::rise(state, level);
    if s >= 16 {
        numbers::touch(state, ends::cell_of(text[p], text[p + 1]), w, level);
        return p + 2;
    }
    p + s % 4
}
