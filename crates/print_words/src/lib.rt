// Prints books, edits and rules in words.

#![tactic(auto)]

mod print;

ghost use Rattle.std.specs.Prelude.{◌≡◌, ◌≤◌, ◌<◌, length};
ghost use Rattle.answer.specs.Asked.{passed};
ghost use Rattle.answer.specs.Answers.{asked, result_asked};
ghost use Rattle.answer.specs.Outputs.{written_length, written_output};
ghost use Rattle.text.specs.Reading.{longest_carried, most_rules};
ghost use Rattle.names.specs.Names.{Naming};
ghost use Rattle.notation.specs.Words.{rule_limits, ask_book_to_words, ask_edit_to_words, ask_rule_to_words};
ghost use Rattle.buffers.specs.Slots.{Slots};
ghost use Rattle.keywords.specs.Rows.{row_goals};
ghost use Rattle.name_table.specs.NameSlots.{name_width, name_count, Holds};
ghost use Rattle.print_words.specs.Printable.{Printable};
ghost use Rattle.print_words.specs.Printed.{ask_printed, ask_to_words};

use answer::{Answer, Refusal};
use text::Text;

// What is wanted first, as a row of items: nothing before the rules of a book; the steps of an edit; one rule.
const BOOK: u64 = 0x00;

const EDIT: u64 = 0x10;

const RULE: u64 = 0x11;

// Prints codes at the output's start: 33. The answer is the length, which a first pass into an empty output finds.
// Inner: the codes can be printed, and the table holds names.
fn print_into(
    table: &[u8],
    codes: &[u8],
    start: u64,
    rules: usize,
    output: &mut [u8],
) -> Result<usize, Refusal>
    requires { Slots name_width name_count table.now × Printable rule_limits codes.now (row_goals start 1) rules × (length codes.now ≤ longest_carried) × (start < 18) × (rules ≤ most_rules) }
    ensures result_value { (name : Naming) → Holds table.now name → result_asked result ≡ written_length (ask_printed name codes.now start rules (length output.old)) }
    ensures output_after { (name : Naming) → Holds table.now name → output.new ≡ written_output (ask_printed name codes.now start rules (length output.old)) output.old }
{
    let mut none = [0u8; 0];
    let size = print::print(table, codes, start, rules, &mut none);
    if output.len() < size {
        return Err(Refusal::OutputLength { place: size });
    }
    print::print(table, codes, start, rules, output);
    Ok(size)
}

// Prints codes with a table of names: 63, then `second`, the answer to the text's own questions, then 33. The answer is the length.
// Inner: if the text has passed, its codes can be printed.
fn to_words(
    names: &[u8],
    codes: &[u8],
    second: Answer,
    start: u64,
    rules: usize,
    output: &mut [u8],
) -> Result<usize, Refusal>
    requires { (asked second ≡ passed tt → Printable rule_limits codes.now (row_goals start 1) rules × (length codes.now ≤ longest_carried)) × (start < 18) × (rules ≤ most_rules) }
    ensures result_value { result_asked result ≡ written_length (ask_to_words names.now (asked second) codes.now start rules (length output.old)) }
    ensures output_after { output.new ≡ written_output (ask_to_words names.now (asked second) codes.now start rules (length output.old)) output.old }
{
    let mut table = [0u8; name_table::BYTES];
    name_table::read_names(names, &mut table)?;
    second.passed()?;
    print_into(&table, codes, start, rules, output)
}

// Prints the words of a book at the output's start: 63 for the table, 11 to 16 for the book with n as 60, 33. The answer is their length.
pub fn book_to_words(names: &[u8], book: &[u8], output: &mut [u8]) -> Result<usize, Refusal>
    ensures result_value { result_asked result ≡ written_length (ask_book_to_words names.now book.now (length output.old)) }
    ensures output_after { output.new ≡ written_output (ask_book_to_words names.now book.now (length output.old)) output.old }
{
    let second = Text::check_book(book, Text::NODES);
    to_words(names, book, second, BOOK, Text::RULES, output)
}

// The same for an edit: 63, 21 to 26 with n as 60, 33.
pub fn edit_to_words(names: &[u8], edit: &[u8], output: &mut [u8]) -> Result<usize, Refusal>
    ensures result_value { result_asked result ≡ written_length (ask_edit_to_words names.now edit.now (length output.old)) }
    ensures output_after { output.new ≡ written_output (ask_edit_to_words names.now edit.now (length output.old)) output.old }
{
    let second = Text::check_edit(edit, Text::NODES);
    to_words(names, edit, second, EDIT, 0, output)
}

// The same for the first rule of a text, carried or not, without copying it: 63, 12 to 15 with n as 60, 33.
pub fn rule_to_words(names: &[u8], text: &[u8], output: &mut [u8]) -> Result<usize, Refusal>
    ensures result_value { result_asked result ≡ written_length (ask_rule_to_words names.now text.now (length output.old)) }
    ensures output_after { output.new ≡ written_output (ask_rule_to_words names.now text.now (length output.old)) output.old }
{
    let end = Text::looked_at(text.len());
    let seen = &text[0..end];
    let second = Text::check_first_carried(seen, Text::NODES);
    to_words(names, seen, second, RULE, 0, output)
}
