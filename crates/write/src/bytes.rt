// Bytes written one after the other.
ghost use Rattle.std.specs.Prelude.{[], ◌∷◌, ◌+◌, ◌<◌, ◌≤◌, length, take, drop};
ghost use Rattle.write.specs.Laid.{Wrote};

// Writes n bytes of a text.
// Inner: they are there, and there is room.
pub fn copy(text: &[u8], at: usize, n: usize, out: &mut [u8], pos: usize) -> usize
    requires { (at + n ≤ length text.now) × (pos + n ≤ length out.old) }
    ensures { Wrote out.old pos (take n (drop at text.now)) result out.new }
{
    out[pos..pos + n].copy_from_slice(&text[at..at + n]);
    pos + n
}

// Writes a code with its numbers, n bytes: without a loop, since there are at most three.
// Inner: they are there, and there is room.
pub fn copy_code(text: &[u8], at: usize, n: usize, out: &mut [u8], pos: usize) -> usize
    requires { (0 < n) × (n < 4) × (at + n ≤ length text.now) × (pos + n ≤ length out.old) }
    ensures { Wrote out.old pos (take n (drop at text.now)) result out.new }
{
    out[pos] = text[at];
    if n > 1 {
        out[pos + 1] = text[at + 1];
    }
    if n > 2 {
        out[pos + 2] = text[at + 2];
    }
    pos + n
}

// Writes two bytes.
// Inner: there is room.
pub fn put_two(a: u8, b: u8, out: &mut [u8], pos: usize) -> usize
    requires { pos + 2 ≤ length out.old }
    ensures { Wrote out.old pos (a ∷ b ∷ []) result out.new }
{
    out[pos] = a;
    out[pos + 1] = b;
    pos + 2
}

// Writes again n bytes of the output that stand before the place.
// Inner: they are there, and there is room.
pub fn again(out: &mut [u8], from: usize, n: usize, pos: usize) -> usize
    requires { (from + n ≤ pos) × (pos + n ≤ length out.old) }
    ensures { Wrote out.old pos (take n (drop from out.old)) result out.new }
{
    out.copy_within(from..from + n, pos);
    pos + n
}
