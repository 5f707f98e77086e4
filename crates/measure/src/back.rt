// The walk back over the edit.
ghost use Rattle.std.specs.Prelude.{◌≡◌, cond, ℕ, ◌≤◌, eqb, length, get_or};
ghost use Rattle.text.specs.Reading.{longest_text, most_rules};
ghost use Rattle.logic.specs.Syntax.{Edit};
ghost use Rattle.tree.specs.Tree.{Tree, under};
ghost use Rattle.tree.specs.Sizes.{capped};
ghost use Rattle.ends.specs.Shapes.{At, Some};
ghost use Rattle.ends.specs.Edits.{EditAt, SomeEdit};
ghost use Rattle.ends.specs.Kept.{Kept};
ghost use Rattle.measure.specs.State.{numbers};
ghost use Rattle.measure.specs.EditMeasures.{EditRoom, StepRoom, Held, StepMeasured, Prefixed, Backed, Pushed, ChoiceHeld};

use super::{keep, numbers, scan};

// Where a walk back stands: at an edit, above what its stack already holds, before what is written.
#[derive(Clone, Copy)]
pub struct Spot {
    pub at: usize,
    pub top: usize,
    pub pos: usize,
}

// How many codes a step puts above its expression: 32 puts 06 and 05.
fn extra(op: u8) -> usize
    ensures { result ≡ cond (eqb op 0x32) 2 1 }
{
    if op == 0x32 { 2 } else { 1 }
}

// The level of a step's expression, where `d` is one level below the name.
fn lower(op: u8, d: u16) -> u16
    ensures { result ≡ cond (eqb op 0x32) (capped (under d 2)) d }
{
    if op == 0x32 { numbers::deeper(d) } else { d }
}

// Back over one step 31 to 34.
// Inner: the text was read before.
fn step_back(text: &[u8], at: usize, state: &mut [u16])
    requires { SomeEdit text.now at × Held state.old × (length text.now ≤ longest_text) × (get_or text.now at 0 ≡ 0x30 → ⊥) × (get_or text.now at 0 ≡ 0x35 → ⊥) }
    ensures { (Z : Edit) → EditAt text.now at Z → (rules : ℕ) → StepMeasured rules Z state.old state.new }
{
    let op = text[at];
    let i = ends::cell_of(ends::name_code(op), text[at + 1]);
    let w = state[i];
    let d = numbers::deeper(state[numbers::DEEPEST + i]);
    state[numbers::DEEPEST + i] = d;
    let next = scan::scan(text, at + 2, w, lower(op, d), state);
    numbers::lengthen(state, w as usize * (extra(op) + (next - (at + 2))));
}

// Puts the places of an edit's steps on a stack and returns its new top. A step takes at least a byte, so a stack as long as the text suffices.
// Inner: the text was read before.
fn push(text: &[u8], at: usize, stack: &mut [u16], top: usize) -> usize
    requires { SomeEdit text.now at × (top ≤ at) × (length text.now ≤ length stack.old) × (length text.now ≤ longest_text) }
    ensures { ((Z : Edit) → EditAt text.now at Z → Pushed text.now at Z stack.new top result) × Kept top stack.old stack.new }
{
    let mut p = at;
    let mut n = top;
    while text[p] != 0x30 {
        stack[n] = p as u16;
        n += 1;
        p = ends::next_step(text, p);
    }
    n
}

// Merges the two ways of a 35 with its rule at `at`, which stands twice for each rule of the book: 25 26 27 K T 26 K U.
// Inner: the text was read before.
fn choose_ways(text: &[u8], at: usize, rules: usize, t: &[u16], state: &mut [u16])
    requires { Some text.now at × (length text.now ≤ longest_text) × (rules ≤ most_rules) × (length t.now ≡ numbers) × (length state.old ≡ numbers) }
    ensures { (K : Tree) → At text.now at K → ChoiceHeld rules K t.now state.old state.new }
{
    numbers::merge(t, state);
    let next = scan::scan(text, at, (2 * rules) as u16, 4, state);
    numbers::lengthen(state, rules * (4 + 2 * (next - at)));
}

// Back over one step: updates the numbers in `state`, and puts the step before what stands at `pos` unless it is idle.
// Inner: the edit was read before. Of the two ways of a 35, the second is written first.
#[cycle(back_one_back)]
fn one_back(
    text: &[u8],
    rules: usize,
    spot: Spot,
    stack: &mut [u16],
    state: &mut [u16],
    out: &mut [u8],
) -> usize
    requires { StepRoom text.now spot.at spot.pos × (get_or text.now spot.at 0 ≡ 0x30 → ⊥) × (spot.top ≤ spot.at) × (length text.now ≤ length stack.old) × (length text.now ≤ longest_text) × (rules ≤ most_rules) × Held state.old × (spot.pos ≤ length out.old) }
    ensures { ((Z : Edit) → EditAt text.now spot.at Z → StepMeasured rules Z state.old state.new × Prefixed rules Z state.old out.old spot.pos out.new result) × Kept spot.top stack.old stack.new }
{
    let at = spot.at;
    if text[at] != 0x35 {
        let start = keep::keep_step(text, at, state, out, spot.pos);
        step_back(text, at, state);
        return start;
    }
    let first = ends::past(text, at + 1);
    let second = ends::end_of(text, first);
    let mut other = [0u16; numbers::ALL];
    other.copy_from_slice(state);
    let way = Spot { at: second, ..spot };
    let q = back(text, rules, way, stack, state, out);
    let way = Spot {
        at: first,
        pos: q,
        ..spot
    };
    let p = back(text, rules, way, stack, &mut other, out);
    choose_ways(text, at + 1, rules, &other, state);
    keep::put_before(text, at, first, out, p)
}

// Back over an edit: updates the numbers in `state`, and puts the edit without its idle steps before what stands at `pos`.
// Inner: the edit was read before.
#[cycle(back_one_back)]
pub fn back(
    text: &[u8],
    rules: usize,
    spot: Spot,
    stack: &mut [u16],
    state: &mut [u16],
    out: &mut [u8],
) -> usize
    requires { EditRoom text.now spot.at spot.pos × (spot.top ≤ spot.at) × (length text.now ≤ length stack.old) × (length text.now ≤ longest_text) × (rules ≤ most_rules) × Held state.old × (spot.pos ≤ length out.old) }
    ensures { ((Z : Edit) → EditAt text.now spot.at Z → Backed rules Z state.old out.old spot.pos state.new out.new result) × Kept spot.top stack.old stack.new }
{
    let end = push(text, spot.at, stack, spot.top);
    let mut pos = keep::end_before(out, spot.pos);
    for top in (spot.top..end).rev() {
        let at = stack[top] as usize;
        pos = one_back(text, rules, Spot { at, top, pos }, stack, state, out);
    }
    pos
}
