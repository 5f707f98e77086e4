// Stored books rewritten without the counts that say nothing (document 02, item 3).

#![tactic(auto)]

ghost use Rattle.std.specs.Prelude.{◌≡◌, List, length};
ghost use Rattle.answer.specs.Answers.{result_asked};
ghost use Rattle.answer.specs.Outputs.{written_length, written_at_start, written_output};
ghost use Rattle.logic.specs.Syntax.{Expr, rule};
ghost use Rattle.text.specs.Code.{book_code};
ghost use Rattle.tree.specs.Tree.{Tree};
ghost use Rattle.ends.specs.Shapes.{At, Some};
ghost use Rattle.ends.specs.Books.{BookIs, SomeBook};
ghost use Rattle.rewrite_counts.specs.Rewritten.{rewritten_book, ask_rewrite};
ghost use Rattle.rewrite_counts.specs.Trees.{least_in_place_def, most_in_place_def, in_place_def, Turned, SomeRewritten};

use answer::Refusal;
use logic::Node;
use text::Text;

// The byte that replaces an 0A with this count and its operands; none where they stay.
#[tactic(auto, using(std::proofs::lemmas::Bool::Decides::nat_tests), unfolding(crate::specs::Trees::least_in_place_def))]
fn least_in_place(count: u8) -> Option<u8>
    ensures { result ≡ least_in_place_def count }
{
    if count == 0 {
        return Some(0x01);
    }
    if count > Node::MAX { Some(0x02) } else { None }
}

// The same for an 0B.
#[tactic(auto, using(std::proofs::lemmas::Bool::Decides::nat_tests), unfolding(crate::specs::Trees::most_in_place_def))]
fn most_in_place(count: u8) -> Option<u8>
    ensures { result ≡ most_in_place_def count }
{
    if count >= Node::MAX { Some(0x01) } else { None }
}

// The byte that replaces what stands at `at`; none where it stays.
// Inner: the book was read before.
fn in_place(book: &[u8], at: usize) -> Option<u8>
    requires { Some book.now at }
    ensures { (t : Tree) → At book.now at t → result ≡ in_place_def t }
{
    match book[at] {
        0x0A => least_in_place(book[at + 1]),
        0x0B => most_in_place(book[at + 1]),
        _ => None,
    }
}

// What happens at a code: the byte to write for it and its operands, none where it stays with its numbers, and the place where the rewriter goes on.
#[derive(Clone, Copy)]
struct Turn {
    byte: Option<u8>,
    next: usize,
}

// Where the code does not stay, its operands are skipped.
// Inner: the book was read before.
fn turn_at(book: &[u8], at: usize) -> Turn
    requires { Some book.now at }
    ensures { (t : Tree) → At book.now at t → Turned book.now at t result.byte result.next }
{
    let byte = in_place(book, at);
    let next = match byte {
        None => at + ends::shape(book[at]) % 4,
        Some(_) => ends::past(book, ends::past(book, at + 2)),
    };
    Turn { byte, next }
}

// The length of the rewritten book.
// Inner: the book was read before.
fn rewritten_length(book: &[u8]) -> usize
    requires { SomeBook book.now }
    ensures { (rules : List (Expr rule)) → BookIs book.now rules → result ≡ length (book_code (rewritten_book rules)) }
{
    let mut p = 0;
    let mut len = 0;
    while p < book.len() {
        let here = turn_at(book, p);
        len += match here.byte {
            None => here.next - p,
            Some(_) => 1,
        };
        p = here.next;
    }
    len
}

// Writes the rewritten book at the output's start.
// Inner: the book was read before, and there is room.
fn put_rewritten(book: &[u8], out: &mut [u8])
    requires { SomeRewritten book.now (length out.old) }
    ensures { (rules : List (Expr rule)) → BookIs book.now rules → out.new ≡ written_at_start (book_code (rewritten_book rules)) out.old }
{
    let mut p = 0;
    let mut q = 0;
    while p < book.len() {
        let here = turn_at(book, p);
        match here.byte {
            None => q = write::bytes::copy(book, p, here.next - p, out, q),
            Some(byte) => {
                out[q] = byte;
                q += 1;
            }
        }
        p = here.next;
    }
}

// Rewrites a stored book at the output's start: 11 to 16 by the former ranges with n as 60, then 33. Answers the length.
pub fn rewrite(book: &[u8], out: &mut [u8]) -> Result<usize, Refusal>
    ensures result_value { result_asked result ≡ written_length (ask_rewrite book.now (length out.old)) }
    ensures out_after { out.new ≡ written_output (ask_rewrite book.now (length out.old)) out.old }
{
    Text::check_former_book(book).passed()?;
    let size = rewritten_length(book);
    if out.len() < size {
        return Err(Refusal::OutputLength { place: size });
    }
    put_rewritten(book, out);
    Ok(size)
}
