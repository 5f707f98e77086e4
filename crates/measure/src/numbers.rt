// The numbers kept for the carried text, each capped at one more than a carried book may have bytes, so that 16 bits hold it:
// the compiler then merges the two ways of a 35 eight names at a time.
ghost use Rattle.std.specs.Prelude.{◌≡◌, ◌+◌, ◌<◌, max, length, get_or, set};
ghost use Rattle.tree.specs.Tree.{under};
ghost use Rattle.tree.specs.Sizes.{capped};
ghost use Rattle.measure.specs.State.{names, length_cell, levels_cell, numbers};
ghost use Rattle.measure.specs.EditMeasures.{Merged};

use text::Text;

// The parts: how often each of the 64 names (labels and arrows) stands there, by its cell of `ends::cell_of`; from here on the deepest
// level of each, 0 where it stands nowhere; then the length and the levels.
pub const DEEPEST: usize = 64;

pub const LENGTH: usize = 128;

pub const LEVELS: usize = 129;

pub const ALL: usize = 130;

// Where counting ends: one more than the most bytes of a carried book.
const BEYOND: usize = Text::LONGEST_CARRIED + 1;

const MOST: u16 = BEYOND as u16;

// A sum, capped; no operand can make it wrap.
fn sum(a: usize, b: usize) -> usize
    ensures { result ≡ capped (a + b) }
{
    a.saturating_add(b).min(BEYOND)
}

// The same for two numbers that are kept: capped before and after, which the compiler does eight at a time.
fn add(a: u16, b: u16) -> u16
    ensures { result ≡ capped (a + b) }
{
    (a.min(MOST) + b.min(MOST)).min(MOST)
}

// One level below `v`, capped; 0 means nowhere and stays 0.
pub fn deeper(v: u16) -> u16
    ensures { result ≡ capped (under v 2) }
{
    if v == 0 { 0 } else { add(v, 1) }
}

// The length, `n` bytes more.
// Inner: over all the numbers.
pub fn lengthen(state: &mut [u16], n: usize)
    requires { length state.old ≡ numbers }
    ensures { state.new ≡ set state.old length_cell (capped (get_or state.old length_cell 0 + n)) }
{
    state[LENGTH] = sum(state[LENGTH] as usize, n) as u16;
}

// Records a code on level `v`.
// Inner: over all the numbers.
pub fn rise(state: &mut [u16], v: u16)
    requires { length state.old ≡ numbers }
    ensures { state.new ≡ set state.old levels_cell (max (get_or state.old levels_cell 0) v) }
{
    state[LEVELS] = state[LEVELS].max(v);
}

// Counts the name of cell `i` `w` times more, on level `v` at the deepest.
// Inner: over all the numbers.
pub fn touch(state: &mut [u16], i: usize, w: u16, v: u16)
    requires { (length state.old ≡ numbers) × (i < names) }
    ensures { state.new ≡ set (set state.old i (capped (get_or state.old i 0 + w))) (names + i) (max (get_or state.old (names + i) 0) v) }
{
    let n = add(state[i], w);
    let d = state[DEEPEST + i].max(v);
    state[i] = n;
    state[DEEPEST + i] = d;
}

// Merges the numbers of one name in both ways of a 35, whose codes 25 26 27 and 25 26 put it two levels deeper.
// Inner: over all the numbers.
fn merge_one(t: &[u16], state: &mut [u16], i: usize)
    requires { (length t.now ≡ numbers) × (length state.old ≡ numbers) × (i < names) }
    ensures { state.new ≡ set (set state.old i (capped (get_or t.now i 0 + get_or state.old i 0))) (names + i) (capped (under (capped (under (max (get_or t.now (names + i) 0) (get_or state.old (names + i) 0)) 2)) 2)) }
{
    let n = add(t[i], state[i]);
    let d = deeper(deeper(t[DEEPEST + i].max(state[DEEPEST + i])));
    state[i] = n;
    state[DEEPEST + i] = d;
}

// Merges the numbers of both ways of a 35.
// Inner: over all the numbers.
pub fn merge(t: &[u16], state: &mut [u16])
    requires { (length t.now ≡ numbers) × (length state.old ≡ numbers) }
    ensures { Merged t.now state.old state.new }
{
    let n = add(t[LENGTH], state[LENGTH]);
    let h = add(t[LEVELS].max(state[LEVELS]), 2);
    for i in 0..DEEPEST {
        merge_one(t, state, i);
    }
    state[LENGTH] = n;
    state[LEVELS] = h;
}
