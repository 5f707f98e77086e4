// The line of an answer, which the programs print ("The program `enter`" of document 01).
ghost use Rattle.std.specs.Prelude.{◌≡◌};
ghost use Rattle.answer.specs.Answers.{asked};
ghost use Rattle.printed.specs.AnswerLine.{answer_line, asked_line, early_line};

use answer::Answer;

// The length of a line in bytes.
pub const BYTES: usize = 9;

// The line of a number and a place.
pub fn line(number: usize, place: usize) -> [u8; BYTES]
    ensures { result ≡ answer_line number place }
{
    let mut out = [b' '; BYTES];
    decimal::write_digits(&mut out[0..2], number);
    decimal::write_digits(&mut out[3..8], place);
    out[8] = b'\n';
    out
}

// The line of an answer.
pub fn line_of(a: Answer) -> [u8; BYTES]
    ensures { result ≡ asked_line (asked a) }
{
    line(a.number(), a.place())
}

// The line when the input ends early.
pub fn early() -> [u8; BYTES]
    ensures { result ≡ early_line }
{
    line(99, 0)
}
