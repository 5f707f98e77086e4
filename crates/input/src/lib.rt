// The input of the programs: a sheet, then texts, each with its length before it. Only the bytes due are read, and none after them.
// Also writes their output.

#![tactic(auto)]

ghost use Rattle.std.specs.Prelude.{◌≡◌, ◌+◌, ◌*◌, ◌≤◌, true, length, IfSome};
ghost use Rattle.std.specs.Io.KnownBytes.{Appends};
ghost use Rattle.input.specs.Input.{text_bytes};

use std::io::{ErrorKind, Read, Write};

// The longest text that a length of two bytes can announce.
pub const TEXT_BYTES: usize = 65535;

// The length in two bytes, the low one first. A function of its own, since the contract of `read_text` cannot say which bytes were read.
fn text_length(low: u8, high: u8) -> usize
    ensures value { result ≡ low + 256 * high }
    ensures upper_bound { result ≤ text_bytes }
{
    usize::from(u16::from_le_bytes([low, high]))
}

// Reads into the buffer as far as the input goes, and returns how many bytes came. An error ends the input, as its end does. A loop that
// reads must be seen to end, so it has a bound, of more reads than there is time for.
pub fn read_up_to<R: Read>(input: &mut R, buf: &mut [u8]) -> usize
    ensures { result ≤ length buf.new }
{
    let mut got = 0;
    for _ in 0..u64::MAX {
        if got == buf.len() {
            break;
        }
        match input.read(&mut buf[got..]) {
            Ok(0) => break,
            Ok(n) => got += n,
            Err(error) => {
                if error.kind() != ErrorKind::Interrupted {
                    break;
                }
            }
        }
    }
    got
}

// Fills the buffer; none when the input ends before it is full. No contract can say what was read.
fn fill<R: Read>(input: &mut R, buf: &mut [u8]) -> Option<()> {
    (read_up_to(input, buf) == buf.len()).then_some(())
}

// Reads a two-byte length and that many bytes, to the start of the buffer; none when the input ends early. Inner: it has room for every such length.
pub fn read_text<R: Read>(input: &mut R, buf: &mut [u8]) -> Option<usize>
    requires { text_bytes ≤ length buf.old }
    ensures { IfSome result (λ n. n ≤ length buf.new) }
{
    let mut two = [0u8; 2];
    fill(input, &mut two)?;
    let n = text_length(two[0], two[1]);
    fill(input, &mut buf[0..n])?;
    Some(n)
}

// Reads a sheet and a book, as every program does first. Inner: the book's buffer has room for a text of any length.
pub fn read_sheet_and_book<R: Read>(
    input: &mut R,
    sheet: &mut [u8],
    book: &mut [u8],
) -> Option<usize>
    requires { text_bytes ≤ length book.old }
    ensures { IfSome result (λ n. n ≤ length book.new) }
{
    fill(input, sheet)?;
    read_text(input, book)
}

// Writes bytes to the output, and returns whether all went out. The programs let a failure go: their reader has gone, and nobody is left to tell.
pub fn write<W: Write>(out: &mut W, bytes: &[u8]) -> bool
    ensures { result ≡ true → Appends (W.contents out.old) (W.contents out.new) bytes.now }
{
    out.write_all(bytes).is_ok()
}
