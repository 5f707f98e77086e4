// Plans to come back to: a store, and sheets kept in it under names.
ghost use Rattle.std.specs.Prelude.{◌≡◌, length};
ghost use Rattle.plan_store.specs.Questions.{ask_blank_store, ask_keep, ask_return, ask_drop};
ghost use Rattle.plan_store.specs.Calls.{blank_store_def, kept_store, returned_sheet, dropped_store};
ghost use Rattle.suite.specs.Numbers.{numbers};

use crate::Numbers;

#[unsafe(no_mangle)]
pub extern "C" fn zamiathen_store_blank(store: &mut [u8]) -> Numbers
    ensures value { result ≡ numbers (ask_blank_store (length store.old)) }
    ensures store_after { store.new ≡ blank_store_def store.old }
{
    Numbers::from(plan_store::blank_store(store))
}

#[unsafe(no_mangle)]
pub extern "C" fn zamiathen_keep(sheet: &[u8], store: &mut [u8], name: usize) -> Numbers
    ensures value { result ≡ numbers (ask_keep sheet.now store.old name) }
    ensures store_after { store.new ≡ kept_store sheet.now store.old name }
{
    Numbers::from(plan_store::keep(sheet, store, name))
}

#[unsafe(no_mangle)]
pub extern "C" fn zamiathen_return(
    sheet: &mut [u8],
    store: &[u8],
    name: usize,
    book: &[u8],
) -> Numbers
    ensures value { result ≡ numbers (ask_return sheet.old store.now name book.now) }
    ensures sheet_after { sheet.new ≡ returned_sheet sheet.old store.now name book.now }
{
    Numbers::from(plan_store::return_to(sheet, store, name, book))
}

#[unsafe(no_mangle)]
pub extern "C" fn zamiathen_drop(store: &mut [u8], name: usize) -> Numbers
    ensures value { result ≡ numbers (ask_drop store.old name) }
    ensures store_after { store.new ≡ dropped_store store.old name }
{
    Numbers::from(plan_store::drop_plan(store, name))
}
