// Edits sent as a chain (document 02, item 9).

#![tactic(auto)]

ghost use Rattle.std.specs.Prelude.{◌≡◌, length};
ghost use Rattle.answer.specs.Answers.{result_asked};
ghost use Rattle.answer.specs.Outputs.{written_length, written_output};
ghost use Rattle.join_edits.specs.Chain.{ask_join_edits};

use answer::Refusal;
use text::Text;

// Joins two edits at the output's start: 21 to 26 of the first and of the second, with n as 60, then 21 of the joined edit, then 33.
// Answers its length. The end of an edit that passes is its last byte, so joining is copying.
pub fn join_edits(p: &[u8], q: &[u8], output: &mut [u8]) -> Result<usize, Refusal>
    ensures result_value { result_asked result ≡ written_length (ask_join_edits p.now q.now (length output.old)) }
    ensures output_after { output.new ≡ written_output (ask_join_edits p.now q.now (length output.old)) output.old }
{
    Text::check_edit(p, Text::NODES).passed()?;
    Text::check_edit(q, Text::NODES).passed()?;
    let end = p.len() - 1;
    let size = end + q.len();
    if size > Text::LONGEST {
        return Err(Refusal::EditLength { place: 0 });
    }
    if output.len() < size {
        return Err(Refusal::OutputLength { place: size });
    }
    output[..end].copy_from_slice(&p[..end]);
    output[end..size].copy_from_slice(q);
    Ok(size)
}
