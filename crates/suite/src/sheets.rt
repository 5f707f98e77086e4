// Blank sheets, the questions of a sheet, old cards, two sheets joined, and bit reads.
ghost use Rattle.std.specs.Prelude.{◌≡◌, min, length};
ghost use Rattle.answer.specs.Answers.{result_asked};
ghost use Rattle.answer.specs.Asked.{after};
ghost use Rattle.seal.specs.Seal.{modulo257, modulo255};
ghost use Rattle.sheet.specs.Sheet.{store, blank};
ghost use Rattle.sheet.specs.Questions.{ask_sheet, ask_blank, ask_label_bit, ask_arrow_bit};
ghost use Rattle.store.specs.Converted.{ask_convert, converted};
ghost use Rattle.join_sheets.specs.Joined.{ask_join, joined_sheet};
ghost use Rattle.suite.specs.Numbers.{numbers, bit_numbers_def};

use crate::{BitNumbers, Numbers};
use answer::Refusal;
use logic::{Arrow, Label, Node};
use seal::Modulo;
use sheet::Sheet;
use store::Store;

#[unsafe(no_mangle)]
pub extern "C" fn zamiathen_blank(sheet: &mut [u8], n: usize) -> Numbers
    ensures value { result ≡ numbers (ask_blank n (length sheet.old)) }
    ensures sheet_after { sheet.new ≡ after (ask_blank n (length sheet.old)) (λ _. store (blank n)) sheet.old }
{
    Numbers::from(Sheet::blank(sheet, n))
}

#[unsafe(no_mangle)]
pub extern "C" fn zamiathen_check(sheet: &[u8]) -> Numbers
    ensures { result ≡ numbers (ask_sheet sheet.now) }
{
    Numbers::from(Sheet::check(sheet))
}

#[unsafe(no_mangle)]
pub extern "C" fn zamiathen_convert_255(card: &mut [u8]) -> Numbers
    ensures value { result ≡ numbers (ask_convert modulo255 card.old) }
    ensures card_after { card.new ≡ converted modulo255 card.old }
{
    Numbers::from(Store::convert(Modulo::M255, card))
}

#[unsafe(no_mangle)]
pub extern "C" fn zamiathen_convert_257(card: &mut [u8]) -> Numbers
    ensures value { result ≡ numbers (ask_convert modulo257 card.old) }
    ensures card_after { card.new ≡ converted modulo257 card.old }
{
    Numbers::from(Store::convert(Modulo::M257, card))
}

#[unsafe(no_mangle)]
pub extern "C" fn zamiathen_join_sheets(first: &mut [u8], second: &[u8]) -> Numbers
    ensures value { result ≡ numbers (ask_join first.old second.now) }
    ensures first_after { first.new ≡ joined_sheet first.old second.now }
{
    Numbers::from(join_sheets::join_sheets(first, second))
}

impl From<Result<bool, Refusal>> for BitNumbers {
    ghost from_gives = { λ read r. r ≡ bit_numbers_def (result_asked read) };

    fn from(read: Result<bool, Refusal>) -> BitNumbers {
        match read {
            Ok(b) => BitNumbers {
                number: 0,
                place: 0,
                bit: usize::from(b),
            },
            Err(r) => BitNumbers {
                number: r.number(),
                place: r.place(),
                bit: 0,
            },
        }
    }
}

// A number as a byte; 255, which no label, arrow or node has, for every larger number.
pub fn byte(x: usize) -> u8
    ensures { result ≡ min x 255 }
{
    u8::try_from(x).unwrap_or(255)
}

#[unsafe(no_mangle)]
pub extern "C" fn zamiathen_label_bit(sheet: &[u8], label: usize, node: usize) -> BitNumbers
    ensures { result ≡ bit_numbers_def (ask_label_bit sheet.now label node) }
{
    BitNumbers::from(Sheet::label_bit(sheet, Label(byte(label)), Node(byte(node))))
}

#[unsafe(no_mangle)]
pub extern "C" fn zamiathen_arrow_bit(
    sheet: &[u8],
    arrow: usize,
    from: usize,
    to: usize,
) -> BitNumbers
    ensures { result ≡ bit_numbers_def (ask_arrow_bit sheet.now arrow from to) }
{
    BitNumbers::from(Sheet::arrow_bit(sheet, Arrow(byte(arrow)), Node(byte(from)), Node(byte(to))))
}
