// An expression written under the steps passed: names become what the steps make of them.
ghost use Rattle.std.specs.Prelude.{◌≡◌, List, [], ◌+◌, ◌<◌, ◌≤◌, length};
ghost use Rattle.tree.specs.Tree.{Tree, tree_code, graft, size};
ghost use Rattle.tree.specs.Stack.{Substitution, env, lead, inner};
ghost use Rattle.ends.specs.Shapes.{At};
ghost use Rattle.write.specs.Laid.{Wrote};
ghost use Rattle.write.specs.Work.{stack_of};
ghost use Rattle.write.specs.Offsets.{StackIs};
ghost use Rattle.write.specs.Links.{last_in, SomeLinks};
ghost use Rattle.write.specs.Writing.{SomeName, SomeShown};

use crate::names::Name;
use crate::{LINKS, Place, STACK, bytes, names};

// The code that a step puts before a name.
fn lead(op: u8) -> u8
    ensures { result ≡ lead op }
{
    match op {
        0x31 => 0x07,
        0x32 => 0x06,
        0x33 => 0x13,
        _ => 0x15,
    }
}

// Writes the 05 that a step 32 puts before its expression.
// Inner: there is room.
fn put_not(op: u8, out: &mut [u8], pos: usize) -> usize
    requires { pos + length (inner op []) ≤ length out.old }
    ensures { Wrote out.old pos (inner op []) result out.new }
{
    if op == 0x32 {
        out[pos] = 0x05;
        return pos + 1;
    }
    pos
}

// Writes a name under steps of which the one at index i is the last that touches it. A step's expression of one code or of one name, as most are,
// is written here.
// Inner: the work array holds offsets of steps, with their links, and there is room; the room left falls with each call.
#[cycle(emit_name)]
fn name(edit: &[u8], work: &[u16], i: usize, of: Name, out: &mut [u8], pos: usize) -> usize
    requires { SomeName edit.now (stack_of work.now) (i + 1) of.code of.number pos (length out.old) × SomeLinks edit.now work.now (i + 1) }
    ensures { (σ : List Substitution) → i + 1 ≡ last_in edit.now (stack_of work.now) (length σ) of.code of.number → StackIs edit.now (stack_of work.now) σ → Wrote out.old pos (tree_code (env σ of.code of.number)) result out.new }
{
    let o = work[STACK + i] as usize;
    let op = edit[o];
    out[pos] = lead(op);
    let p = match names::linked(work[LINKS + i]) {
        None => bytes::put_two(of.code, of.number, out, pos + 1),
        Some(older) => name(edit, work, older, of, out, pos + 1),
    };
    let q = put_not(op, out, p);
    let at = o + 2;
    let code = edit[at];
    let s = ends::shape(code);
    if s < 4 {
        return bytes::copy_code(edit, at, s, out, q);
    }
    if s >= 16 {
        let number = edit[at + 1];
        let whole = Name { code, number };
        return match names::find(edit, work, i, whole) {
            None => bytes::put_two(code, number, out, q),
            Some(last) => name(edit, work, last, whole, out, q),
        };
    }
    emit(edit, edit, work, i, out, Place { at, pos: q }).pos
}

// Writes an expression of a text under h steps, code by code: a name as the steps make it, any other code with its numbers as it stands.
// Returns the places after what was read and after what was written. Each code takes one from the expressions still wanted, and adds its operands.
// Inner: it stands there, the work array holds offsets of steps, and there is room.
#[cycle(emit_name)]
pub fn emit(text: &[u8], edit: &[u8], work: &[u16], h: usize, out: &mut [u8], place: Place) -> Place
    requires { SomeShown text.now place.at edit.now (stack_of work.now) h place.pos (length out.old) × SomeLinks edit.now work.now h }
    ensures { (σ : List Substitution) (t : Tree) → h ≡ length σ → StackIs edit.now (stack_of work.now) σ → At text.now place.at t → Wrote out.old place.pos (tree_code (graft (env σ) t)) result.pos out.new × (result.at ≡ place.at + size t) }
{
    let mut p = place.at;
    let mut q = place.pos;
    let mut wanted: usize = 1;
    while 0 < wanted {
        let c = text[p];
        let s = ends::shape(c);
        if s >= 16 {
            let number = text[p + 1];
            let of = Name { code: c, number };
            q = match names::find(edit, work, h, of) {
                None => bytes::put_two(c, number, out, q),
                Some(i) => name(edit, work, i, of, out, q),
            };
            p += 2;
            wanted -= 1;
        } else {
            q = bytes::copy_code(text, p, s % 4, out, q);
            p += s % 4;
            wanted = wanted - 1 + s / 4 % 4;
        }
    }
    Place { at: p, pos: q }
}
