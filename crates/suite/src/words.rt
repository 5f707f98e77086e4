// Books and edits in words.
ghost use Rattle.std.specs.Prelude.{◌≡◌, length};
ghost use Rattle.answer.specs.Outputs.{written_length, written_output};
ghost use Rattle.names.specs.Names.{ask_names};
ghost use Rattle.notation.specs.Words.{ask_book_to_words, ask_edit_to_words, ask_rule_to_words, ask_book_from_words, ask_edit_from_words, rule_in_words_def};
ghost use Rattle.suite.specs.Numbers.{numbers, length_numbers};

use crate::{LengthNumbers, Numbers};

#[unsafe(no_mangle)]
pub extern "C" fn zamiathen_check_names(names: &[u8]) -> Numbers
    ensures { result ≡ numbers (ask_names names.now) }
{
    Numbers::from(name_table::check_names(names))
}

#[unsafe(no_mangle)]
pub extern "C" fn zamiathen_book_to_words(
    names: &[u8],
    book: &[u8],
    output: &mut [u8],
) -> LengthNumbers
    ensures value { result ≡ length_numbers (written_length (ask_book_to_words names.now book.now (length output.old))) }
    ensures output_after { output.new ≡ written_output (ask_book_to_words names.now book.now (length output.old)) output.old }
{
    LengthNumbers::from(print_words::book_to_words(names, book, output))
}

#[unsafe(no_mangle)]
pub extern "C" fn zamiathen_edit_to_words(
    names: &[u8],
    edit: &[u8],
    output: &mut [u8],
) -> LengthNumbers
    ensures value { result ≡ length_numbers (written_length (ask_edit_to_words names.now edit.now (length output.old))) }
    ensures output_after { output.new ≡ written_output (ask_edit_to_words names.now edit.now (length output.old)) output.old }
{
    LengthNumbers::from(print_words::edit_to_words(names, edit, output))
}

#[unsafe(no_mangle)]
pub extern "C" fn zamiathen_rule_to_words(
    names: &[u8],
    rule: &[u8],
    output: &mut [u8],
) -> LengthNumbers
    ensures value { result ≡ length_numbers (written_length (ask_rule_to_words names.now rule.now (length output.old))) }
    ensures output_after { output.new ≡ written_output (ask_rule_to_words names.now rule.now (length output.old)) output.old }
{
    LengthNumbers::from(print_words::rule_to_words(names, rule, output))
}

#[unsafe(no_mangle)]
pub extern "C" fn zamiathen_book_from_words(
    names: &[u8],
    words: &[u8],
    output: &mut [u8],
) -> LengthNumbers
    ensures value { result ≡ length_numbers (written_length (ask_book_from_words names.now words.now (length output.old))) }
    ensures output_after { output.new ≡ written_output (ask_book_from_words names.now words.now (length output.old)) output.old }
{
    LengthNumbers::from(read_words::book_from_words(names, words, output))
}

#[unsafe(no_mangle)]
pub extern "C" fn zamiathen_edit_from_words(
    names: &[u8],
    words: &[u8],
    output: &mut [u8],
) -> LengthNumbers
    ensures value { result ≡ length_numbers (written_length (ask_edit_from_words names.now words.now (length output.old))) }
    ensures output_after { output.new ≡ written_output (ask_edit_from_words names.now words.now (length output.old)) output.old }
{
    LengthNumbers::from(read_words::edit_from_words(names, words, output))
}

#[unsafe(no_mangle)]
pub extern "C" fn zamiathen_rule_in_words(names: &[u8], words: &[u8], rule: usize) -> usize
    ensures { result ≡ rule_in_words_def names.now words.now rule }
{
    read_words::rule_in_words(names, words, rule)
}
