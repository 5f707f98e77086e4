// Carrying a book back into an output ("Carrying back" and "The questions, in order" of document 01).

#![tactic(auto)]

ghost use Rattle.std.specs.Prelude.{◌≡◌, List, ◌≤◌, length};
ghost use Rattle.logic.specs.Syntax.{Edit, Expr, rule};
ghost use Rattle.ends.specs.Edits.{EditAt, SomeEdit};
ghost use Rattle.ends.specs.Books.{BookIs, SomeBook};
ghost use Rattle.answer.specs.Answers.{result_asked};
ghost use Rattle.carry.specs.Carrying.{carried_book, carry_answer, carry_output};
ghost use Rattle.carry.specs.Into.{Into};
ghost use Rattle.text.specs.Reading.{longest_text};

use answer::Refusal;
use text::Text;

// The most bytes and levels of a carried book.
pub const LONGEST_CARRIED: usize = Text::LONGEST_CARRIED;

pub const DEEPEST_CARRIED: usize = Text::DEEPEST_CARRIED as usize;

// Carries a book back through an edit into an output: asks 31, 32, 33, and only then writes, at the output's start.
// It writes with the edit without its idle steps, which change nothing, so that no rule passes them in vain.
// Inner: book and edit were read before.
pub fn carry_into(book: &[u8], edit: &[u8], out: &mut [u8]) -> Result<usize, Refusal>
    requires { SomeBook book.now × SomeEdit edit.now 0 × (length edit.now ≤ longest_text) }
    ensures { (rules : List (Expr rule)) (Z : Edit) → BookIs book.now rules → EditAt edit.now 0 Z → Into (carried_book Z rules) result out.old out.new }
{
    if book.is_empty() {
        return Ok(0);
    }
    let mut kept = [0u8; Text::LONGEST];
    let mut work = [0u16; write::WORK];
    let size = measure::size_of_book(book, edit, &mut work, &mut kept);
    let len = size.len;
    if len > LONGEST_CARRIED {
        return Err(Refusal::CarriedLength { place: 0 });
    }
    if size.levels > DEEPEST_CARRIED {
        return Err(Refusal::CarriedLevels { place: 0 });
    }
    if len > out.len() {
        return Err(Refusal::OutputLength { place: len });
    }
    Ok(write::write_book(book, &kept, size.start, &mut work, out))
}

// Carries a book back through an edit into an output: 11 to 16, 21 to 26, with n as 60, then 31 to 33. Answers the length.
pub fn carry_back(book: &[u8], edit: &[u8], out: &mut [u8]) -> Result<usize, Refusal>
    ensures result_value { result_asked result ≡ carry_answer book.now edit.now (length out.old) }
    ensures out_after { out.new ≡ carry_output book.now edit.now out.old }
{
    Text::check_book(book, Text::NODES).passed()?;
    Text::check_edit(edit, Text::NODES).passed()?;
    carry_into(book, edit, out)
}
