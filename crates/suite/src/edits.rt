// Joining two edits, carrying out an edit without a book, carrying a book back through it, entering it, and its blocks in a log.
ghost use Rattle.std.specs.Prelude.{◌≡◌, length};
ghost use Rattle.answer.specs.Outputs.{written_length, written_output};
ghost use Rattle.apply.specs.Apply.{ask_apply, applied_sheet};
ghost use Rattle.carry.specs.Carrying.{carry_answer, carry_output};
ghost use Rattle.join_edits.specs.Chain.{ask_join_edits};
ghost use Rattle.log_edit.specs.LogEdit.{ask_log_edit};
ghost use Rattle.runs.specs.Enter.{enter_answer, enter_sheet, enter_scratch};
ghost use Rattle.suite.specs.Numbers.{numbers, length_numbers};

use crate::{LengthNumbers, Numbers};

#[unsafe(no_mangle)]
pub extern "C" fn zamiathen_join_edits(p: &[u8], q: &[u8], output: &mut [u8]) -> LengthNumbers
    ensures value { result ≡ length_numbers (written_length (ask_join_edits p.now q.now (length output.old))) }
    ensures output_after { output.new ≡ written_output (ask_join_edits p.now q.now (length output.old)) output.old }
{
    LengthNumbers::from(join_edits::join_edits(p, q, output))
}

#[unsafe(no_mangle)]
pub extern "C" fn zamiathen_apply(sheet: &mut [u8], edit: &[u8]) -> Numbers
    ensures value { result ≡ numbers (ask_apply sheet.old edit.now) }
    ensures sheet_after { sheet.new ≡ applied_sheet sheet.old edit.now }
{
    Numbers::from(apply::apply(sheet, edit))
}

#[unsafe(no_mangle)]
pub extern "C" fn zamiathen_carry_back(book: &[u8], edit: &[u8], output: &mut [u8]) -> LengthNumbers
    ensures value { result ≡ length_numbers (carry_answer book.now edit.now (length output.old)) }
    ensures output_after { output.new ≡ carry_output book.now edit.now output.old }
{
    LengthNumbers::from(carry::carry_back(book, edit, output))
}

#[unsafe(no_mangle)]
pub extern "C" fn zamiathen_enter(
    sheet: &mut [u8],
    book: &[u8],
    edit: &[u8],
    scratch: &mut [u8],
) -> Numbers
    ensures value { result ≡ numbers (enter_answer sheet.old book.now edit.now (length scratch.old)) }
    ensures sheet_after { sheet.new ≡ enter_sheet sheet.old book.now edit.now (length scratch.old) }
    ensures scratch_after { scratch.new ≡ enter_scratch sheet.old book.now edit.now scratch.old }
{
    Numbers::from(enter_edit::enter(sheet, book, edit, scratch))
}

#[unsafe(no_mangle)]
pub extern "C" fn zamiathen_log_edit(edit: &[u8], output: &mut [u8]) -> LengthNumbers
    ensures value { result ≡ length_numbers (written_length (ask_log_edit edit.now (length output.old))) }
    ensures output_after { output.new ≡ written_output (ask_log_edit edit.now (length output.old)) output.old }
{
    LengthNumbers::from(log_edit::log_edit(edit, output))
}
