// Quantifiers over a relation, wherever its rows stand: `row` gives the row of a node.
ghost use Rattle.std.specs.Prelude.{◌≡◌, true, ◌&&◌, ℕ, ◌^◌, ◌<◌, ◌≤◌};
ghost use Rattle.logic.specs.Graph.{Nodes, Pairs, any_below};
ghost use Rattle.logic.specs.Limits.{max_nodes};
ghost use Rattle.bitset.specs.Words.{set_of, member};
ghost use Rattle.rows.specs.Operations.{number, quantified, enough, least, turn, Among, Gives};

use crate::counting::{Wanted, answered, enough, least, looked};

// The nodes of `within` that have the wanted ends in e. Inner, here and below: n is a sheet's node count, and each node's row can be asked for.
fn starts<F: Fn(usize) -> u64>(k: Wanted, n: usize, within: u64, row: &F, e: u64) -> u64
    requires { (n ≤ max_nodes) × (within < 2 ^ n) × ((i : ℕ) → i < n → F.pre row.now i) }
    ensures { (v : Pairs) (w : Nodes) → Gives n v (F.post row.now) → e ≡ set_of n w → result ≡ set_of n (λ i. member within i && enough (number k) n (v i) w) }
{
    let mut r: u64 = 0;
    let mut left = within;
    while 0 < left {
        let i = bitset::first(left);
        if enough(k, row(i), e) {
            r = bitset::either(r, bitset::only(i));
        }
        left = bitset::but_first(left);
    }
    r
}

// All nodes that have the wanted ends in e: row by row, which costs less for each node than member by member.
fn all_starts<F: Fn(usize) -> u64>(k: Wanted, n: usize, row: &F, e: u64) -> u64
    requires { (n ≤ max_nodes) × ((i : ℕ) → i < n → F.pre row.now i) }
    ensures { (v : Pairs) (w : Nodes) → Gives n v (F.post row.now) → e ≡ set_of n w → result ≡ set_of n (λ i. enough (number k) n (v i) w) }
{
    let mut r: u64 = 0;
    for i in 0..n {
        if enough(k, row(i), e) {
            r |= 1 << i;
        }
    }
    r
}

// The ends of the rows of e.
fn ends_of_one<F: Fn(usize) -> u64>(n: usize, row: &F, e: u64) -> u64
    requires { (n ≤ max_nodes) × (e < 2 ^ n) × ((i : ℕ) → i < n → F.pre row.now i) }
    ensures { (v : Pairs) → Gives n v (F.post row.now) → result ≡ set_of n (λ j. enough 1 n (λ i. v i j) (member e)) }
{
    let mut one: u64 = 0;
    let mut left = e;
    while 0 < left {
        let i = bitset::first(left);
        one = bitset::either(one, row(i));
        left = bitset::but_first(left);
    }
    one
}

// The ends of all rows.
pub fn all_ends<F: Fn(usize) -> u64>(n: usize, row: &F) -> u64
    requires { (n ≤ max_nodes) × ((i : ℕ) → i < n → F.pre row.now i) }
    ensures { (v : Pairs) → Gives n v (F.post row.now) → result ≡ set_of n (λ j. any_below n (λ i. v i j)) }
{
    let mut r: u64 = 0;
    for i in 0..n {
        r = bitset::either(r, row(i));
    }
    r
}

// The nodes in which some row of e ends.
fn ends<F: Fn(usize) -> u64>(n: usize, all: u64, row: &F, e: u64) -> u64
    requires { (n ≤ max_nodes) × (e < 2 ^ n) × ((i : ℕ) → i < n → F.pre row.now i) }
    ensures { (v : Pairs) → Among all v → Gives n v (F.post row.now) → result ≡ set_of n (λ j. enough 1 n (λ i. v i j) (member e)) }
{
    if e == all {
        all_ends(n, row)
    } else {
        ends_of_one(n, row, e)
    }
}

// The nodes of `within` that have the wanted ends in e.
fn asked_starts<F: Fn(usize) -> u64>(
    k: Wanted,
    n: usize,
    all: u64,
    within: u64,
    row: &F,
    e: u64,
) -> u64
    requires { (n ≤ max_nodes) × (within < 2 ^ n) × ((i : ℕ) → i < n → F.pre row.now i) }
    ensures { (v : Pairs) (w : Nodes) → Gives n v (F.post row.now) → e ≡ set_of n w → result ≡ set_of n (λ i. member within i && enough (number k) n (v i) w) }
{
    if within == all {
        bitset::both(within, all_starts(k, n, row, e))
    } else {
        starts(k, n, within, row, e)
    }
}

// 08, 09, 0A, 0B: the nodes of `within` that meet it, for the rows or, when turned, for the columns. Inner: columns are asked for one end only.
pub fn quantified<F: Fn(usize) -> u64>(
    c: u8,
    m: u8,
    n: usize,
    all: u64,
    within: u64,
    turned: bool,
    row: &F,
    e: u64,
) -> u64
    requires { (n ≤ max_nodes) × (within < 2 ^ n) × (all < 2 ^ n) × (e < 2 ^ n) × (turned ≡ true → 1 ≡ least c m) × ((i : ℕ) → i < n → F.pre row.now i) }
    ensures { (v : Pairs) → Among all v → Gives n v (F.post row.now) → result ≡ set_of n (λ i. member within i && quantified c m n (turn turned v i) (member e)) }
{
    let f = looked(c, all, e);
    if turned {
        answered(c, within, ends(n, all, row, f))
    } else {
        answered(c, within, asked_starts(least(c, m), n, all, within, row, f))
    }
}
