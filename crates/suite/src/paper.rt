// Pages printed from a sheet, and typed back into one.
ghost use Rattle.std.specs.Prelude.{◌≡◌, length};
ghost use Rattle.answer.specs.Outputs.{written_length, written_output};
ghost use Rattle.pages.specs.Print.{ask_print_arrow, ask_print_labels};
ghost use Rattle.pages.specs.Typed.{ask_type, typed_sheet};
ghost use Rattle.suite.specs.Numbers.{numbers, length_numbers};

use crate::{LengthNumbers, Numbers};

#[unsafe(no_mangle)]
pub extern "C" fn zamiathen_print_arrow(
    sheet: &[u8],
    arrow: usize,
    output: &mut [u8],
) -> LengthNumbers
    ensures value { result ≡ length_numbers (written_length (ask_print_arrow sheet.now arrow (length output.old))) }
    ensures output_after { output.new ≡ written_output (ask_print_arrow sheet.now arrow (length output.old)) output.old }
{
    LengthNumbers::from(pages::print::print_arrow(sheet, arrow, output))
}

#[unsafe(no_mangle)]
pub extern "C" fn zamiathen_print_labels(sheet: &[u8], output: &mut [u8]) -> LengthNumbers
    ensures value { result ≡ length_numbers (written_length (ask_print_labels sheet.now (length output.old))) }
    ensures output_after { output.new ≡ written_output (ask_print_labels sheet.now (length output.old)) output.old }
{
    LengthNumbers::from(pages::print::print_labels(sheet, output))
}

#[unsafe(no_mangle)]
pub extern "C" fn zamiathen_type_page(sheet: &mut [u8], page: &[u8]) -> Numbers
    ensures value { result ≡ numbers (ask_type sheet.old page.now) }
    ensures sheet_after { sheet.new ≡ typed_sheet sheet.old page.now }
{
    Numbers::from(pages::typed::type_page(sheet, page))
}
