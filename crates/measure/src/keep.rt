// The edit written again without its idle steps, from its end to its start.
ghost use Rattle.std.specs.Prelude.{◌≡◌, ℕ, ◌+◌, ◌<◌, ◌≤◌, length, get_or};
ghost use Rattle.text.specs.Reading.{longest_text};
ghost use Rattle.logic.specs.Syntax.{Edit};
ghost use Rattle.ends.specs.Edits.{EditAt};
ghost use Rattle.measure.specs.EditMeasures.{StepRoom, Held, Prefixed, PutBefore, EndBefore};

// Puts the bytes of `text` from `at` to `end` before what stands at `pos`; returns where they start.
// Inner: the caller knows that there is room.
pub fn put_before(text: &[u8], at: usize, end: usize, out: &mut [u8], pos: usize) -> usize
    requires { (at ≤ end) × (end ≤ length text.now) × (end ≤ at + pos) × (pos ≤ length out.old) }
    ensures { PutBefore text.now at end out.old pos out.new result }
{
    let start = pos - (end - at);
    out[start..pos].copy_from_slice(&text[at..end]);
    start
}

// Puts an edit's end before what stands at `pos`.
// Inner: the caller knows that there is room.
pub fn end_before(out: &mut [u8], pos: usize) -> usize
    requires { (0 < pos) × (pos ≤ length out.old) }
    ensures { EndBefore out.old pos out.new result }
{
    out[pos - 1] = 0x30;
    pos - 1
}

// Puts one step 31 to 34 before what stands at `pos`, unless its name stands nowhere in what follows.
// Inner: the edit was read before.
pub fn keep_step(text: &[u8], at: usize, state: &[u16], out: &mut [u8], pos: usize) -> usize
    requires { StepRoom text.now at pos × (get_or text.now at 0 ≡ 0x30 → ⊥) × (get_or text.now at 0 ≡ 0x35 → ⊥) × Held state.now × (length text.now ≤ longest_text) × (pos ≤ length out.old) }
    ensures { (Z : Edit) → EditAt text.now at Z → (rules : ℕ) → Prefixed rules Z state.now out.old pos out.new result }
{
    let i = ends::cell_of(ends::name_code(text[at]), text[at + 1]);
    if state[i] == 0 {
        return pos;
    }
    put_before(text, at, ends::past(text, at + 2), out, pos)
}
