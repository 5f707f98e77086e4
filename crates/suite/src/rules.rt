// Where the rules of a text stand, judging them, rewriting a stored book, and checking a shortened rule.
ghost use Rattle.std.specs.Prelude.{◌≡◌, length};
ghost use Rattle.answer.specs.Outputs.{written_length, written_output};
ghost use Rattle.text.specs.Reading.{text_limits};
ghost use Rattle.text.specs.Questions.{rule_start_def};
ghost use Rattle.judge.specs.Judging.{judged_part};
ghost use Rattle.judge.specs.Questions.{ask_judge};
ghost use Rattle.rewrite_counts.specs.Rewritten.{ask_rewrite};
ghost use Rattle.shortening.specs.Questions.{ask_check};
ghost use Rattle.suite.specs.Numbers.{numbers, length_numbers, part_numbers, rule_end};

use crate::{LengthNumbers, Numbers, PartNumbers};
use text::Text;

#[unsafe(no_mangle)]
pub extern "C" fn zamiathen_first_rule(text: &[u8]) -> LengthNumbers
    ensures { result ≡ length_numbers (rule_end text.now) }
{
    let a = Text::first_rule_answer(text);
    let rule = Text::first_rule(text);
    LengthNumbers {
        number: a.number(),
        place: a.place(),
        length: rule.len(),
    }
}

#[unsafe(no_mangle)]
pub extern "C" fn zamiathen_rule_start(book: &[u8], n: usize, rule: usize) -> usize
    ensures { result ≡ rule_start_def (text_limits n) rule book.now }
{
    Text::rule_start(book, n, rule)
}

#[unsafe(no_mangle)]
pub extern "C" fn zamiathen_judge(sheet: &[u8], book: &[u8]) -> PartNumbers
    ensures { result ≡ part_numbers (ask_judge sheet.now book.now) (judged_part sheet.now book.now) }
{
    let verdict = judge::decide(sheet, book);
    let a = verdict.answer;
    PartNumbers {
        number: a.number(),
        place: a.place(),
        start: verdict.start,
        length: verdict.size,
    }
}

#[unsafe(no_mangle)]
pub extern "C" fn zamiathen_rewrite(book: &[u8], output: &mut [u8]) -> LengthNumbers
    ensures value { result ≡ length_numbers (written_length (ask_rewrite book.now (length output.old))) }
    ensures output_after { output.new ≡ written_output (ask_rewrite book.now (length output.old)) output.old }
{
    LengthNumbers::from(rewrite_counts::rewrite(book, output))
}

#[unsafe(no_mangle)]
pub extern "C" fn zamiathen_check_steps(rule: &[u8], steps: &[u8], sent: &[u8]) -> Numbers
    ensures { result ≡ numbers (ask_check rule.now steps.now sent.now) }
{
    Numbers::from(check_steps::check_steps(rule, steps, sent))
}
