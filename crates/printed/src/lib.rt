// What the programs print for an edit.

#![tactic(auto)]

ghost use Rattle.std.specs.Prelude.{◌≡◌};
ghost use Rattle.printed.specs.Printed.{printed_line, printed_sheet};

use text::Text;

pub mod line;

// The length of the programs' scratch in bytes.
const SCRATCH_BYTES: usize = Text::LONGEST_CARRIED;

// Enters the edit and returns the line of the answer; the sheet is then the one to print after it.
pub fn enter_line(sheet: &mut [u8], book: &[u8], edit: &[u8]) -> [u8; crate::line::BYTES]
    ensures value { result ≡ printed_line sheet.old book.now edit.now }
    ensures sheet_after { sheet.new ≡ printed_sheet sheet.old book.now edit.now }
{
    let mut scratch = [0u8; SCRATCH_BYTES];
    crate::line::line_of(enter_edit::enter(sheet, book, edit, &mut scratch))
}
