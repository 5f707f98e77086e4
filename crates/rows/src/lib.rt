// Node sets as words and arrow relations as rows of words: what each code with operands does to them.
// A relation has 64 rows, of which the first n count; it is changed in place. `all` is the word of the graph's nodes in use.
// This file has the sets.

#![tactic(auto)]

ghost use Rattle.std.specs.Prelude.{◌≡◌, ◌&&◌, ℕ, ◌<◌, ◌≤◌, eqb};
ghost use Rattle.logic.specs.Graph.{Nodes, all_below, implies};
ghost use Rattle.logic.specs.Limits.{max_nodes};
ghost use Rattle.bitset.specs.Words.{set_of};

use logic::Node;

mod counting;
mod over;
pub mod over_kinds;
pub mod over_rows;
pub mod relations;

// Whether each member of x is in y.
pub fn set_in(x: u64, y: u64) -> bool
    ensures { (n : ℕ) (v w : Nodes) → n ≤ 64 → x ≡ set_of n v → y ≡ set_of n w → result ≡ all_below n (λ i. implies (v i) (w i)) }
{
    bitset::minus(x, y) == 0
}

// A node's number as an index of rows and bits.
fn index(i: Node) -> usize
    ensures { result ≡ i.0 }
{
    usize::from(i.0)
}

// 04: that node only. Inner: i is a node's number, here and below.
pub fn nominal(all: u64, i: Node) -> u64
    requires { i.0 < max_nodes }
    ensures { (n : ℕ) (nodes : Nodes) → n ≤ 64 → all ≡ set_of n nodes → result ≡ set_of n (λ k. nodes k && eqb k i.0) }
{
    bitset::both(all, bitset::only(index(i)))
}

// 23: whether node i is in the set.
pub fn node_in(x: u64, i: Node) -> bool
    requires { i.0 < max_nodes }
    ensures { (n : ℕ) (v : Nodes) → i.0 < n → x ≡ set_of n v → result ≡ v i.0 }
{
    bitset::member(x, index(i))
}
