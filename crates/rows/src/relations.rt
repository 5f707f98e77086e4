// Relations as rows: 11 to 17, and what 22 and 24 need of them.
// Inner, all of them: n is a sheet's node count, i and j are node numbers, and there are 64 rows.
ghost use Rattle.std.specs.Prelude.{◌≡◌, true, ◌&&◌, ◌||◌, cond, ℕ, ◌<◌, ◌≤◌, eqb, ltb, [], ◌∷◌, length, get_or, replicate};
ghost use Rattle.logic.specs.Graph.{Nodes, Pairs, all_below, implies};
ghost use Rattle.logic.specs.Limits.{max_nodes, arrow_count};
ghost use Rattle.bitset.specs.Words.{set_of, member, combined};
ghost use Rattle.sheet.specs.Sheet.{graph_of, Rows};
ghost use Rattle.sheet.specs.Questions.{Sound};
ghost use Rattle.rows.specs.Operations.{arrow_operation, Masked, Columns, turn};

use crate::{index, node_in, nominal, set_in};
use logic::{Arrow, Node};
use sheet::Sheet;

// 13, 14, 15 on one row.
fn combined_row(c: u8, x: u64, y: u64) -> u64
    ensures { result ≡ combined (arrow_operation c) x y }
{
    match c {
        0x13 => bitset::either(x, y),
        0x14 => bitset::both(x, y),
        _ => bitset::minus(x, y),
    }
}

// 11: the rows of an arrow kind, from the sheet. Inner: the sheet is sound, n is its node count, and it has that arrow kind.
pub fn arrow_rows(sheet: &[u8], n: usize, a: Arrow, out: &mut [u64])
    requires { Sound sheet.now × (n ≡ (graph_of sheet.now).n) × (n ≤ max_nodes) × (a.0 < arrow_count) × (length out.old ≡ 64) }
    ensures { Rows n ((graph_of sheet.now).joined a.0) out.new × (length out.new ≡ 64) }
{
    for i in 0..n {
        out[i] = Sheet::row_word(sheet, a, Node(i as u8));
    }
}

// 13, 14, 15: the result replaces a.
pub fn combine_rows(c: u8, n: usize, a: &mut [u64], b: &[u64])
    requires { (n ≤ max_nodes) × (length a.old ≡ 64) × (length b.now ≡ 64) }
    ensures { ((v w : Pairs) → Rows n v a.old → Rows n w b.now → Rows n (λ i j. arrow_operation c (v i j) (w i j)) a.new) × (length a.new ≡ 64) }
{
    for i in 0..n {
        a[i] = combined_row(c, a[i], b[i]);
    }
}

// 13, 14, 15 with an arrow kind of the sheet as second operand: the result replaces a. Inner: the sheet is sound, n is its node count, and it has that kind.
pub fn combine_kind(c: u8, sheet: &[u8], n: usize, k: Arrow, a: &mut [u64])
    requires { Sound sheet.now × (n ≡ (graph_of sheet.now).n) × (n ≤ max_nodes) × (k.0 < arrow_count) × (length a.old ≡ 64) }
    ensures { ((v : Pairs) → Rows n v a.old → Rows n (λ i j. arrow_operation c (v i j) ((graph_of sheet.now).joined k.0 i j)) a.new) × (length a.new ≡ 64) }
{
    for i in 0..n {
        a[i] = combined_row(c, a[i], Sheet::row_word(sheet, k, Node(i as u8)));
    }
}

// Each row with the mask e. Inner: the rows are words here, whatever they stand for.
fn mask_rows(n: usize, rows: &mut [u64], e: u64)
    requires { (n ≤ max_nodes) × (length rows.old ≡ 64) }
    ensures { Masked n rows.old e rows.new × (length rows.new ≡ 64) }
{
    for i in 0..n {
        rows[i] = bitset::both(rows[i], e);
    }
}

// The arrows that end in e.
fn end_rows(n: usize, rows: &mut [u64], e: u64)
    requires { (n ≤ max_nodes) × (length rows.old ≡ 64) }
    ensures { ((v : Pairs) (w : Nodes) → Rows n v rows.old → e ≡ set_of n w → Rows n (λ i j. v i j && w j) rows.new) × (length rows.new ≡ 64) }
{
    mask_rows(n, rows, e);
}

// Row i where i is in e, otherwise nothing. Inner: i is below 64.
fn kept_row(e: u64, i: usize, row: u64) -> u64
    requires { i < 64 }
    ensures { result ≡ cond (member e i) row 0 }
{
    if bitset::member(e, i) { row } else { 0 }
}

// The arrows that start in e.
fn start_rows(n: usize, rows: &mut [u64], e: u64)
    requires { (n ≤ max_nodes) × (length rows.old ≡ 64) }
    ensures { ((v : Pairs) (w : Nodes) → Rows n v rows.old → e ≡ set_of n w → Rows n (λ i j. v i j && w i) rows.new) × (length rows.new ≡ 64) }
{
    for i in 0..n {
        rows[i] = kept_row(e, i, rows[i]);
    }
}

// 16 for a relation in rows or, turned, in columns.
pub fn ending_rows(n: usize, turned: bool, rows: &mut [u64], e: u64)
    requires { (n ≤ max_nodes) × (length rows.old ≡ 64) }
    ensures { ((v : Pairs) (w : Nodes) → Rows n (turn turned v) rows.old → e ≡ set_of n w → Rows n (turn turned (λ i j. v i j && w j)) rows.new) × (length rows.new ≡ 64) }
{
    if turned {
        start_rows(n, rows, e);
    } else {
        end_rows(n, rows, e);
    }
}

// Column j of three rows. Inner: j is below 64.
fn column(a: u64, b: u64, c: u64, j: usize) -> u64
    requires { j < 64 }
    ensures { result ≡ set_of 3 (λ i. member (get_or (a ∷ b ∷ c ∷ []) i 0) j) }
{
    (a >> j) % 2 + 2 * ((b >> j) % 2) + 4 * ((c >> j) % 2)
}

// Exchanges the first three rows and columns: on a sheet of at most three nodes the other rows need not move.
fn reverse_three(rows: &mut [u64])
    requires { length rows.old ≡ 64 }
    ensures { Columns 3 rows.old rows.new × (length rows.new ≡ 64) }
{
    let a = rows[0];
    let b = rows[1];
    let c = rows[2];
    rows[0] = column(a, b, c, 0);
    rows[1] = column(a, b, c, 1);
    rows[2] = column(a, b, c, 2);
}

// Puts i into the sets of the members of a row. Inner: i is below 64.
fn put_column(out: &mut [u64], row: u64, i: usize)
    requires { (i < 64) × (length out.old ≡ 64) }
    ensures { ((p : Pairs) → Rows 64 p out.old → Rows 64 (λ j k. p j k || (member row j && eqb k i)) out.new) × (length out.new ≡ 64) }
{
    let mut left = row;
    while 0 < left {
        let j = bitset::first(left);
        out[j] = bitset::either(out[j], bitset::only(i));
        left = bitset::but_first(left);
    }
}

// How many pairs are moved one by one: this many take about as long as exchanging all rows and columns.
const FEW: usize = 32;

// The columns of rows that have few pairs. Where they have more it may give up and answer false, and `out` may then hold anything.
fn few_columns(n: usize, rows: &[u64], out: &mut [u64]) -> bool
    requires { (n ≤ max_nodes) × (length rows.now ≡ 64) × (out.old ≡ replicate 64 0) }
    ensures { (result ≡ true → Rows 64 (λ j k. ltb k n && member (get_or rows.now k 0) j) out.new) × (length out.new ≡ 64) }
{
    let mut left = FEW;
    for i in 0..n {
        let row = rows[i];
        if row != 0 {
            let pairs = bitset::count_common(row, row) as usize;
            if left < pairs {
                return false;
            }
            left -= pairs;
            put_column(out, row, i);
        }
    }
    true
}

// 12: exchanges rows and columns. Rows from n on may hold anything, so as columns they are masked out.
pub fn reverse_rows(n: usize, rows: &mut [u64])
    requires { (n ≤ max_nodes) × (length rows.old ≡ 64) }
    ensures { ((v : Pairs) → Rows n v rows.old → Rows n (λ i j. v j i) rows.new) × (length rows.new ≡ 64) }
{
    if n <= 3 {
        reverse_three(rows);
        mask_rows(n, rows, bitset::lowest(n));
        return;
    }
    let mut columns = [0u64; 64];
    if few_columns(n, rows, &mut columns) {
        rows[..n].copy_from_slice(&columns[..n]);
        return;
    }
    bitset::transpose(rows);
    mask_rows(n, rows, bitset::lowest(n));
}

// A relation in rows or, turned, in columns is put into the orientation that is wanted.
pub fn face_rows(n: usize, turned: bool, wanted: bool, rows: &mut [u64])
    requires { (n ≤ max_nodes) × (length rows.old ≡ 64) }
    ensures { ((v : Pairs) → Rows n (turn turned v) rows.old → Rows n (turn wanted v) rows.new) × (length rows.new ≡ 64) }
{
    if turned != wanted {
        reverse_rows(n, rows);
    }
}

// 22: whether each arrow of a is one of b.
pub fn rows_in(n: usize, a: &[u64], b: &[u64]) -> bool
    requires { (n ≤ max_nodes) × (length a.now ≡ 64) × (length b.now ≡ 64) }
    ensures { (v w : Pairs) → Rows n v a.now → Rows n w b.now → result ≡ all_below n (λ i. all_below n (λ j. implies (v i j) (w i j))) }
{
    for i in 0..n {
        if !set_in(a[i], b[i]) {
            return false;
        }
    }
    true
}

// The row of node i in 17.
fn pair_row(all: u64, i: Node, j: Node) -> u64
    requires { (i.0 < max_nodes) × (j.0 < max_nodes) }
    ensures { (n : ℕ) (nodes : Nodes) → n ≤ 64 → i.0 < n → all ≡ set_of n nodes → result ≡ set_of n (λ l. nodes i.0 && (nodes l && eqb l j.0)) }
{
    if bitset::member(all, index(i)) {
        nominal(all, j)
    } else {
        0
    }
}

// 17: that pair only. Inner: the rows hold zeros before.
pub fn pair_rows(all: u64, i: Node, j: Node, out: &mut [u64])
    requires { (i.0 < max_nodes) × (j.0 < max_nodes) × (out.old ≡ replicate 64 0) }
    ensures { ((n : ℕ) (nodes : Nodes) → n ≤ 64 → all ≡ set_of n nodes → Rows n (λ k l. (nodes k && eqb k i.0) && (nodes l && eqb l j.0)) out.new) × (length out.new ≡ 64) }
{
    let at = index(i);
    out[at] = pair_row(all, i, j);
}

// 13, 15 with one pair as second operand: only one row changes. Inner: not for 14, which would change all.
pub fn combine_pair(c: u8, all: u64, i: Node, j: Node, a: &mut [u64])
    requires { (c ≡ 0x14 → ⊥) × (i.0 < max_nodes) × (j.0 < max_nodes) × (length a.old ≡ 64) }
    ensures { ((n : ℕ) (nodes : Nodes) (v : Pairs) → n ≤ 64 → all ≡ set_of n nodes → Rows n v a.old → Rows n (λ k l. arrow_operation c (v k l) ((nodes k && eqb k i.0) && (nodes l && eqb l j.0))) a.new) × (length a.new ≡ 64) }
{
    let at = index(i);
    a[at] = combined_row(c, a[at], pair_row(all, i, j));
}

// 24: whether the relation has the pair of i and j.
pub fn pair_in(rows: &[u64], i: Node, j: Node) -> bool
    requires { (i.0 < max_nodes) × (j.0 < max_nodes) × (length rows.now ≡ 64) }
    ensures { (n : ℕ) (v : Pairs) → i.0 < n → j.0 < n → Rows n v rows.now → result ≡ v i.0 j.0 }
{
    let at = index(i);
    node_in(rows[at], j)
}
