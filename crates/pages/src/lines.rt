// One line of a page: writing it and reading it back. Inner: callers pass a whole line of 64 bytes to every function here.
ghost use Rattle.std.specs.Prelude.{◌≡◌, ◌<◌, ◌≤◌, ◌++◌, length, take};
ghost use Rattle.logic.specs.Limits.{max_nodes};
ghost use Rattle.bitset.specs.Words.{set_of, member};
ghost use Rattle.seal.specs.Seal.{same_bytes};
ghost use Rattle.pages.specs.Page.{line_bytes, head_line, square, squares, set_line};
ghost use Rattle.pages.specs.Typed.{block_shown, head_of, lines_of, marks};

use sheet::Sheet;

// The length of a line, line feed included.
pub const LINE: usize = 64;

// The lines after the label page's head: one per label, and one for the nodes in use.
const LABEL_LINES: usize = Sheet::LABELS + 1;

// The square of column j in the row of a set. Inner: j is below 64.
fn square(n: usize, row: u64, j: usize) -> u8
    requires { j < 64 }
    ensures { result ≡ square n (member row) j }
{
    if j >= n {
        return b' ';
    }
    if bitset::member(row, j) { b'#' } else { b'.' }
}

// Fills a line after its first three bytes with the squares of a set and a line feed.
fn put_squares(line: &mut [u8], n: usize, row: u64)
    requires { length line.old ≡ line_bytes }
    ensures { line.new ≡ take 3 line.old ++ squares n (member row) }
{
    for j in 0..Sheet::NODES {
        line[3 + j] = square(n, row, j);
    }
    line[63] = b'\n';
}

// Makes the line that of number x, for a set.
pub fn put_line(line: &mut [u8], n: usize, x: usize, row: u64)
    requires { length line.old ≡ line_bytes }
    ensures { line.new ≡ set_line n x (member row) }
{
    decimal::write_digits(&mut line[0..2], x);
    line[2] = b' ';
    put_squares(line, n, row);
}

// Makes the line a head, which has the squares of no columns.
fn put_head(line: &mut [u8], letter: u8, x: usize)
    requires { length line.old ≡ line_bytes }
    ensures { line.new ≡ head_line letter x }
{
    line[0] = letter;
    decimal::write_digits(&mut line[1..3], x);
    put_squares(line, 0, 0);
}

// What a page shows: the arrows of a kind, or the labels and the nodes in use.
#[derive(Clone, Copy)]
pub enum Shown {
    Arrows(usize),
    Labels,
}

// Makes the line the head of this page, for a sheet of n.
pub fn put_head_of(line: &mut [u8], n: usize, shown: Shown)
    requires { length line.old ≡ line_bytes }
    ensures { line.new ≡ head_of n (block_shown shown) }
{
    match shown {
        Shown::Arrows(a) => put_head(line, b'A', a),
        Shown::Labels => put_head(line, b'L', n),
    }
}

// How many lines follow that head. Inner: n is a sheet's node count.
pub fn lines_of(n: usize, shown: Shown) -> usize
    requires { n ≤ max_nodes }
    ensures { (result ≡ lines_of n (block_shown shown)) × (result ≤ max_nodes) }
{
    match shown {
        Shown::Arrows(_) => n,
        Shown::Labels => LABEL_LINES,
    }
}

// The set of a line's marks. Inner: n is a sheet's node count.
pub fn marks_of(line: &[u8], n: usize) -> u64
    requires { (length line.now ≡ line_bytes) × (n ≤ max_nodes) }
    ensures { result ≡ set_of n (marks line.now) }
{
    let mut r: u64 = 0;
    for j in 0..n {
        if line[3 + j] == b'#' {
            r |= 1 << j;
        }
    }
    r
}

// Whether the line is that of number x, for a set.
pub fn line_is(line: &[u8], n: usize, x: usize, set: u64) -> bool
    requires { length line.now ≡ line_bytes }
    ensures { result ≡ same_bytes line.now (set_line n x (member set)) }
{
    let mut wanted = [0u8; LINE];
    put_line(&mut wanted, n, x, set);
    line == wanted.as_slice()
}
