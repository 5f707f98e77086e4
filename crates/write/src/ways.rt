// A way through an edit, and a rule written along it. A 35 has two ways, and the rule is written along both.
ghost use Rattle.std.specs.Prelude.{◌≡◌, List, ◌∷◌, false, ◌+◌, ◌<◌, ◌≤◌, length, get_or, take, drop};
ghost use Rattle.tree.specs.Tree.{Tree, tree_code, graft, size};
ghost use Rattle.tree.specs.Stack.{Substitution, env};
ghost use Rattle.logic.specs.Syntax.{rule, Expr, Edit};
ghost use Rattle.text.specs.Code.{code, edit_code};
ghost use Rattle.ends.specs.Shapes.{At, Some};
ghost use Rattle.ends.specs.Edits.{EditAt};
ghost use Rattle.ends.specs.Books.{RuleAt};
ghost use Rattle.ends.specs.Kept.{Kept};
ghost use Rattle.write.specs.Laid.{Wrote};
ghost use Rattle.write.specs.Work.{stack_of, links_of, behind_of};
ghost use Rattle.write.specs.Offsets.{StackIs};
ghost use Rattle.write.specs.Links.{SomeLinks, LinkedIn, Relinked, Fitting};
ghost use Rattle.write.specs.Ways.{SomeWay, resting, Passed, Walked, SomeTwo, Ends, Noted, Renoted, SomeCarried, WayWritten};
ghost use Rattle.write.specs.Writing.{SomeShown};

use crate::expressions::emit;
use crate::{BEHIND, NOTES, Place, Reached, STACK, bytes, names};

// Whether a walk rests here: at a 35, or at the end.
// Inner: the place is in the edit.
fn rests(edit: &[u8], at: usize, d: usize) -> bool
    requires { at < length edit.now }
    ensures { result ≡ resting (get_or edit.now at 0) d }
{
    let c = edit[at];
    c == 0x35 || c == 0x30 && d == 0
}

// The place after the expression of a step, as `ends::past` finds it. An expression of a single code is handled here: a rule passes each step, and most steps
// have one of that kind.
// Inner: the edit was read before.
fn behind(edit: &[u8], at: usize) -> usize
    requires { Some edit.now at }
    ensures { (t : Tree) → At edit.now at t → result ≡ at + size t }
{
    let s = ends::shape(edit[at]);
    if s < 4 {
        return at + s;
    }
    ends::past(edit, at)
}

// Goes past a step, which is put on the stack and linked, or past an end to the edit after it.
// Inner: there is a way, and it does not rest here.
fn pass(edit: &[u8], work: &mut [u16], from: Reached) -> Reached
    requires { SomeWay edit.now (stack_of work.old) (behind_of work.old) from.at from.h from.d × (resting (get_or edit.now from.at 0) from.d ≡ false) × Fitting edit.now work.old × LinkedIn edit.now work.old from.h }
    ensures { Passed edit.now (stack_of work.old) (behind_of work.old) from.at from.h from.d (stack_of work.new) result.at result.h result.d × Relinked edit.now work.old work.new from.h result.h }
{
    let at = from.at;
    let h = from.h;
    let d = from.d;
    if edit[at] == 0x30 {
        let top = d - 1;
        let next = work[BEHIND + top] as usize;
        return Reached {
            at: next,
            h,
            d: top,
        };
    }
    work[STACK + h] = at as u16;
    names::link(edit, at, work, h);
    let next = behind(edit, at + 2);
    Reached {
        at: next,
        h: h + 1,
        d,
    }
}

// Goes on until the walk rests.
// Inner: there is a way.
pub fn walk(edit: &[u8], work: &mut [u16], from: Reached) -> Reached
    requires { SomeWay edit.now (stack_of work.old) (behind_of work.old) from.at from.h from.d × Fitting edit.now work.old × LinkedIn edit.now work.old from.h }
    ensures { Walked edit.now (stack_of work.old) (behind_of work.old) from.at from.h from.d (stack_of work.new) result.at result.h result.d × Relinked edit.now work.old work.new from.h result.h }
{
    let mut here = from;
    while !rests(edit, here.at, here.d) {
        here = pass(edit, work, here);
    }
    here
}

// Where the second way of a 35 stands, and what follows it.
#[derive(Clone, Copy)]
struct Ways {
    second: usize,
    next: usize,
}

// Every rule needs it for each 35 again, so what is found is noted, by the place of the first way: where branches are nested, finding it takes as long
// as reading what they hold.
// Inner: the first way stands there, and the second after it.
fn ways_at(edit: &[u8], first: usize, work: &mut [u16]) -> Ways
    requires { SomeTwo edit.now first × (0 < first) × Fitting edit.now work.old × Noted edit.now work.old }
    ensures { Ends edit.now first result.second result.next × Renoted edit.now work.old work.new }
{
    let i = NOTES + 3 * (first / 4 % 64);
    if work[i] as usize == first {
        let second = work[i + 1] as usize;
        let next = work[i + 2] as usize;
        return Ways { second, next };
    }
    let second = ends::end_of(edit, first);
    let next = ends::end_of(edit, second);
    work[i] = first as u16;
    work[i + 1] = second as u16;
    work[i + 2] = next as u16;
    Ways { second, next }
}

// Writes 25 26 27 and the rule of the 35 where a walk rests. Returns the places after what was read and after what was written.
// Inner: it stands there, the work array holds offsets of steps, and there is room.
fn open_first(edit: &[u8], work: &[u16], rest: Reached, out: &mut [u8], pos: usize) -> Place
    requires { SomeShown edit.now (rest.at + 1) edit.now (stack_of work.now) rest.h (pos + 3) (length out.old) × SomeLinks edit.now work.now rest.h }
    ensures { (σ : List Substitution) (t : Tree) → rest.h ≡ length σ → StackIs edit.now (stack_of work.now) σ → At edit.now (rest.at + 1) t → Wrote out.old pos (0x25 ∷ 0x26 ∷ 0x27 ∷ tree_code (graft (env σ) t)) result.pos out.new × (result.at ≡ rest.at + 1 + size t) }
{
    let at = rest.at + 1;
    let p = bytes::put_two(0x25, 0x26, out, pos);
    out[p] = 0x27;
    emit(edit, edit, work, rest.h, out, Place { at, pos: p + 1 })
}

// Writes 26, and n bytes of the output again: the rule of the 35, which stands there.
// Inner: they stand before the place, and there is room.
fn open_second(out: &mut [u8], from: usize, n: usize, pos: usize) -> usize
    requires { (from + n ≤ pos) × (pos + 1 + n ≤ length out.old) }
    ensures { Wrote out.old pos (0x26 ∷ take n (drop from out.old)) result out.new }
{
    out[pos] = 0x26;
    bytes::again(out, from, n, pos + 1)
}

// Writes the rule at a place of a text as carried back along a way of the edit. Returns the places after what was read and after what was written.
// Inner: the rule stands there, there is a way, and there is room; the room left falls with each call. Afterwards the last steps of names may be anything.
pub fn write_way(
    text: &[u8],
    edit: &[u8],
    work: &mut [u16],
    from: Reached,
    out: &mut [u8],
    place: Place,
) -> Place
    requires { SomeCarried text.now place.at edit.now (stack_of work.old) (behind_of work.old) from.at from.h from.d place.pos (length out.old) × Fitting edit.now work.old × LinkedIn edit.now work.old from.h × Noted edit.now work.old }
    ensures { WayWritten text.now place.at edit.now (stack_of work.old) (behind_of work.old) from.at from.h from.d out.old place.pos result.pos (stack_of work.new) (behind_of work.new) out.new × Kept from.h (links_of work.old) (links_of work.new) × Noted edit.now work.new
        × ((K : Expr rule) → RuleAt text.now place.at K → result.at ≡ place.at + length (code K)) }
{
    let rest = walk(edit, work, from);
    let p = rest.at;
    if edit[p] == 0x30 {
        return emit(text, edit, work, rest.h, out, place);
    }
    let k = open_first(edit, work, rest, out, place.pos);
    let a = k.pos;
    let ways = ways_at(edit, k.at, work);
    let top = BEHIND + rest.d;
    let saved = work[top];
    work[top] = ways.next as u16;
    let mut last = [0u16; 64];
    last.copy_from_slice(&work[..64]);
    let at = place.at;
    let mut way = rest;
    way.d = rest.d + 1;
    way.at = k.at;
    let b = write_way(text, edit, work, way, out, Place { at, pos: a }).pos;
    work[..64].copy_from_slice(&last);
    let test = place.pos + 3;
    let c = open_second(out, test, a - test, b);
    way.at = ways.second;
    let end = write_way(text, edit, work, way, out, Place { at, pos: c });
    work[top] = saved;
    end
}
