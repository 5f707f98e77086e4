// One edit as blocks of a log (document 02, item 4).

#![tactic(auto)]

ghost use Rattle.std.specs.Prelude.{◌≡◌, [], ◌∷◌, ◌≤◌, ◌<◌, length};
ghost use Rattle.answer.specs.Answers.{result_asked};
ghost use Rattle.answer.specs.Outputs.{written_length, written_at_start, written_output};
ghost use Rattle.seal.specs.Seal.{block_bytes};
ghost use Rattle.text.specs.Reading.{longest_text};
ghost use Rattle.log_blocks.specs.Log.{content_bytes};
ghost use Rattle.log_blocks.specs.Making.{block, log_of};
ghost use Rattle.log_edit.specs.LogEdit.{ask_log_edit};

use answer::Refusal;
use seal::{BLOCK, BODY};
use text::Text;

// The length of a block's fields, and the most edit bytes that it holds.
const FIELDS: usize = 4;

const CONTENT: usize = BODY - FIELDS;

// Makes the buffer the block with this byte 1 and these edit bytes. Inner: it has a block's length, and they fit.
fn make_block(mark: u8, part: &[u8], buf: &mut [u8])
    requires { (length part.now ≤ content_bytes) × (length buf.old ≡ block_bytes) }
    ensures { buf.new ≡ block mark part.now }
{
    let end = FIELDS + part.len();
    buf.fill(0);
    buf[0] = 3;
    buf[1] = mark;
    buf[2..FIELDS].copy_from_slice(&(part.len() as u16).to_le_bytes());
    buf[FIELDS..end].copy_from_slice(part);
    seal::seal(buf);
}

// Puts an edit's blocks at the output's start. Inner: the edit has at least one byte and at most a text's length, and there is room.
fn put_blocks(edit: &[u8], output: &mut [u8])
    requires { (0 < length edit.now) × (length edit.now ≤ longest_text) × (length (log_of (edit.now ∷ [])) ≤ length output.old) }
    ensures { output.new ≡ written_at_start (log_of (edit.now ∷ [])) output.old }
{
    let mut mark = 1;
    let mut from = 0;
    let mut at = 0;
    while CONTENT < edit.len() - from {
        let next = from + CONTENT;
        let end = at + BLOCK;
        make_block(mark, &edit[from..next], &mut output[at..end]);
        mark = 0;
        from = next;
        at = end;
    }
    let last = at + BLOCK;
    make_block(mark + 2, &edit[from..edit.len()], &mut output[at..last]);
}

// The blocks that hold an edit, at the output's start: 22 for an edit without bytes, 21 for one above 4,096, then 33. Answers their length.
pub fn log_edit(edit: &[u8], output: &mut [u8]) -> Result<usize, Refusal>
    ensures result_value { result_asked result ≡ written_length (ask_log_edit edit.now (length output.old)) }
    ensures output_after { output.new ≡ written_output (ask_log_edit edit.now (length output.old)) output.old }
{
    let n = edit.len();
    if n < 1 {
        return Err(Refusal::EditEnds { place: 0 });
    }
    if n > Text::LONGEST {
        return Err(Refusal::EditLength { place: 0 });
    }
    let size = BLOCK * n.div_ceil(CONTENT);
    if output.len() < size {
        return Err(Refusal::OutputLength { place: size });
    }
    put_blocks(edit, output);
    Ok(size)
}
