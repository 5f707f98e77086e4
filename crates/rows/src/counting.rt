// The quantifiers, 08 to 0B, as one question: whether a row has at least k ends in a set. Here: how many ends, which set, and which nodes then meet it.
ghost use Rattle.std.specs.Prelude.{◌≡◌, ◌&&◌, ℕ, ◌^◌, ◌<◌, ◌≤◌};
ghost use Rattle.logic.specs.Graph.{Nodes};
ghost use Rattle.bitset.specs.Words.{set_of, member};
ghost use Rattle.rows.specs.Operations.{number, enough, least, looked, answered};

// How many ends must be there: one (08, 09), or a number that is counted (0A, 0B).
#[derive(Clone, Copy)]
pub enum Wanted {
    One,
    Count(usize),
}

// Whether at least k ends of a row are in e. 0A and 0B count the common bits, however small the number they are compared with.
pub fn enough(k: Wanted, row: u64, e: u64) -> bool
    ensures { (n : ℕ) (v w : Nodes) → n ≤ 64 → row ≡ set_of n v → e ≡ set_of n w → result ≡ enough (number k) n v w }
{
    match k {
        Wanted::One => bitset::both(row, e) != 0,
        Wanted::Count(m) => m <= bitset::count_common(row, e) as usize,
    }
}

// For 08, 09, 0A, 0B: how many ends must be there,
pub fn least(c: u8, m: u8) -> Wanted
    ensures { number result ≡ least c m }
{
    match c {
        0x08 | 0x09 => Wanted::One,
        0x0A => Wanted::Count(usize::from(m)),
        _ => Wanted::Count(usize::from(m) + 1),
    }
}

// in which set,
pub fn looked(c: u8, all: u64, e: u64) -> u64
    ensures { (n : ℕ) (nodes w : Nodes) → n ≤ 64 → all ≡ set_of n nodes → e ≡ set_of n w → result ≡ set_of n (λ i. looked c (nodes i) (w i)) }
{
    match c {
        0x09 => bitset::minus(all, e),
        _ => e,
    }
}

// and which nodes of `within` then meet it, where r are the nodes with those ends.
pub fn answered(c: u8, within: u64, r: u64) -> u64
    ensures { (n : ℕ) (p : Nodes) → n ≤ 64 → within < 2 ^ n → r ≡ set_of n p → result ≡ set_of n (λ i. member within i && answered c (p i)) }
{
    match c {
        0x08 | 0x0A => bitset::both(within, r),
        _ => bitset::minus(within, r),
    }
}
