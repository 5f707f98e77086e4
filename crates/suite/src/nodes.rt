// Closing and opening a node.
ghost use Rattle.std.specs.Prelude.{◌≡◌};
ghost use Rattle.close_node.specs.Questions.{ask_close, ask_open, closed_sheet, opened_sheet};
ghost use Rattle.suite.specs.Numbers.{numbers};

use crate::Numbers;

#[unsafe(no_mangle)]
pub extern "C" fn zamiathen_close(sheet: &mut [u8], book: &[u8], node: usize) -> Numbers
    ensures value { result ≡ numbers (ask_close sheet.old book.now node) }
    ensures sheet_after { sheet.new ≡ closed_sheet sheet.old book.now node }
{
    Numbers::from(close_node::close(sheet, book, node))
}

#[unsafe(no_mangle)]
pub extern "C" fn zamiathen_open(sheet: &mut [u8], book: &[u8], node: usize) -> Numbers
    ensures value { result ≡ numbers (ask_open sheet.old book.now node) }
    ensures sheet_after { sheet.new ≡ opened_sheet sheet.old book.now node }
{
    Numbers::from(close_node::open(sheet, book, node))
}
