// Sets of nodes as u64; a u64 in 8 bytes; bytes made zero; 64 words transposed.

#![tactic(auto)]

ghost use Rattle.std.specs.Prelude.{◌≡◌, true, not, ◌&&◌, ◌||◌, cond, ℕ, ◌+◌, ◌-◌, ◌<◌, ◌≤◌, eqb, ltb, length, replicate};
ghost use Rattle.std.specs.Int.Count.{count_trailing_zeros};
ghost use Rattle.logic.specs.Graph.{count_below};
ghost use Rattle.bitset.specs.Words.{set_of, member, combined, word_at, put_word_def};
ghost use Rattle.bitset.specs.Transpose.{Transposed, low_half, from_row, from_column, Blocks, LowFrom, Moved, MovedFrom};

// Whether node i is in the set x. Inner: i is below 64.
pub fn member(x: u64, i: usize) -> bool
    requires { i < 64 }
    ensures { result ≡ member x i }
{
    x >> i & 1 == 1
}

// The set of node i alone. Inner: i is below 64.
pub fn only(i: usize) -> u64
    requires { i < 64 }
    ensures { result ≡ set_of 64 (λ j. eqb j i) }
{
    1 << i
}

// The set of the n lowest nodes. Inner: a sheet has fewer than 64 nodes, so the shift stays within the word.
pub fn lowest(n: usize) -> u64
    requires { n < 64 }
    ensures { result ≡ set_of 64 (λ j. ltb j n) }
{
    (1 << n) - 1
}

// The nodes in x and in y.
pub fn both(x: u64, y: u64) -> u64
    ensures { result ≡ combined ◌&&◌ x y }
{
    x & y
}

// The nodes in x or in y.
pub fn either(x: u64, y: u64) -> u64
    ensures { result ≡ combined ◌||◌ x y }
{
    x | y
}

// The nodes in x and not in y.
pub fn minus(x: u64, y: u64) -> u64
    ensures { result ≡ combined (λ a b. a && not b) x y }
{
    x & (x ^ y)
}

// How many nodes are in both x and y.
pub fn count_common(x: u64, y: u64) -> u32
    ensures { result ≡ count_below 64 (λ i. member x i && member y i) }
{
    u64::count_ones(x & y)
}

// The lowest node of the set x. Inner: x is not empty; the same goes for `but_first`.
pub fn first(x: u64) -> usize
    requires { 0 < x }
    ensures { (member x result ≡ true) × (result < 64) × (result ≡ count_trailing_zeros 64 x) }
{
    u64::trailing_zeros(x) as usize
}

// The set x without its lowest node. It is the smaller number, so a loop over the members ends.
pub fn but_first(x: u64) -> u64
    requires { 0 < x }
    ensures { ((i : ℕ) → i ≡ count_trailing_zeros 64 x → result ≡ set_of 64 (λ j. member x j && not (eqb j i))) × (result < x) }
{
    x & (x - 1)
}

// The word in the 8 bytes from `at` on. Inner: the callers' bytes reach that far.
// The array is written out because the compiler then makes one load of it; `copy_from_slice` into an array costs a branch and a copy.
pub fn load(s: &[u8], at: usize) -> u64
    requires { at + 8 ≤ length s.now }
    ensures { result ≡ word_at s.now at }
{
    u64::from_le_bytes([
        s[at],
        s[at + 1],
        s[at + 2],
        s[at + 3],
        s[at + 4],
        s[at + 5],
        s[at + 6],
        s[at + 7],
    ])
}

// Puts x into the 8 bytes from `at` on. Inner: the callers' bytes reach that far.
pub fn store(s: &mut [u8], at: usize, x: u64)
    requires { at + 8 ≤ length s.old }
    ensures { s.new ≡ put_word_def s.old at x }
{
    s[at..at + 8].copy_from_slice(&x.to_le_bytes());
}

// Makes every byte zero.
pub fn wipe(s: &mut [u8])
    ensures { s.new ≡ replicate (length s.old) 0 }
{
    s.fill(0);
}

// The new row in the low half of its block, from its old value x and the row y, which is s rows further on. Inner: m is the mask for s.
fn low_row(x: u64, y: u64, s: usize, m: u64) -> u64
    requires { Blocks s m }
    ensures { result ≡ set_of 64 (λ j. cond (low_half s j) (member x j) (member y (j - s))) }
{
    (x & m) | (y & m) << s
}

// The new row in the high half, from the row x, which is s rows before, and its old value y. Inner: m is the mask for s.
fn high_row(x: u64, y: u64, s: usize, m: u64) -> u64
    requires { Blocks s m }
    ensures { result ≡ set_of 64 (λ j. cond (low_half s j) (member x (j + s)) (member y j)) }
{
    (x >> s & m) | (y & m << s)
}

// Exchanges blocks between the s rows from b on and the next s rows. Inner: m is the mask for s, and b starts a low half.
fn exchange_rows(rows: &mut [u64], b: usize, s: usize, m: u64)
    requires { Blocks s m × LowFrom s b × (b + s + s ≤ 64) × (length rows.old ≡ 64) }
    ensures { MovedFrom b s rows.old rows.new × (length rows.new ≡ 64) }
{
    for i in b..b + s {
        let x = rows[i];
        let y = rows[i + s];
        rows[i] = low_row(x, y, s, m);
        rows[i + s] = high_row(x, y, s, m);
    }
}

// Exchanges blocks of s rows and s columns in all 64 rows. Inner: m is the mask for s.
fn exchange_blocks(rows: &mut [u64], s: usize, m: u64)
    requires { Blocks s m × (length rows.old ≡ 64) }
    ensures { Moved rows.old rows.new (from_row s) (from_column s) × (length rows.new ≡ 64) }
{
    for b in (0..64).step_by(2 * s) {
        exchange_rows(rows, b, s, m);
    }
}

// Transposes the rows in place: by halves, then by quarters, and so on down to single bits. Inner: there are 64 rows.
pub fn transpose(rows: &mut [u64])
    requires { length rows.old ≡ 64 }
    ensures { Transposed rows.old rows.new × (length rows.new ≡ 64) }
{
    exchange_blocks(rows, 32, 0x0000_0000_FFFF_FFFF);
    exchange_blocks(rows, 16, 0x0000_FFFF_0000_FFFF);
    exchange_blocks(rows, 8, 0x00FF_00FF_00FF_00FF);
    exchange_blocks(rows, 4, 0x0F0F_0F0F_0F0F_0F0F);
    exchange_blocks(rows, 2, 0x3333_3333_3333_3333);
    exchange_blocks(rows, 1, 0x5555_5555_5555_5555);
}
