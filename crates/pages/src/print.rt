// Prints pages into an output, line by line.
ghost use Rattle.std.specs.Prelude.{◌≡◌, ◌*◌, ◌<◌, ◌≤◌, length};
ghost use Rattle.answer.specs.Answers.{result_asked};
ghost use Rattle.answer.specs.Outputs.{ask_room, written_length, written_at_start, written_output};
ghost use Rattle.logic.specs.Limits.{max_nodes};
ghost use Rattle.bitset.specs.Words.{set_of};
ghost use Rattle.sheet.specs.Sheet.{graph_of};
ghost use Rattle.sheet.specs.Questions.{Sound};
ghost use Rattle.pages.specs.Page.{line_bytes};
ghost use Rattle.pages.specs.Print.{ask_print_arrow, ask_print_labels};
ghost use Rattle.pages.specs.Typed.{block_shown, lines_of};
ghost use Rattle.pages.specs.Prints.{HasBlock, set_at, page_lines, page_of};

use crate::lines::{LINE, Shown, lines_of, put_head_of, put_line};
use answer::Refusal;
use logic::{Arrow, Label, Node};
use sheet::Sheet;

// The set of line x of a page. Inner: the sheet is sound, and the page has that line.
fn line_word(sheet: &[u8], shown: Shown, x: usize) -> u64
    requires { Sound sheet.now × HasBlock (block_shown shown) × (x < lines_of (graph_of sheet.now).n (block_shown shown)) × (x < 64) }
    ensures { result ≡ set_of (graph_of sheet.now).n (set_at (graph_of sheet.now) (block_shown shown) x) }
{
    match shown {
        Shown::Arrows(a) => Sheet::row_word(sheet, Arrow(a as u8), Node(x as u8)),
        Shown::Labels => {
            if x < Sheet::LABELS {
                return Sheet::label_word(sheet, Label(x as u8));
            }
            Sheet::all_nodes(sheet)
        }
    }
}

// Writes the m lines of a page at the output's start. Inner: the sheet is sound with n nodes, m is the number of lines, and there is room for them.
fn put_lines(sheet: &[u8], n: usize, shown: Shown, m: usize, out: &mut [u8])
    requires { Sound sheet.now × (n ≡ (graph_of sheet.now).n) × HasBlock (block_shown shown) × (m ≡ lines_of n (block_shown shown)) × (m ≤ max_nodes) × (line_bytes * m ≤ length out.old) }
    ensures { out.new ≡ written_at_start (page_lines (graph_of sheet.now) (block_shown shown)) out.old }
{
    for x in 0..m {
        let from = LINE * x;
        let to = from + LINE;
        put_line(&mut out[from..to], n, x, line_word(sheet, shown, x));
    }
}

// Prints a page at the output's start; 33 if the output is too short. The answer is the page's length. Inner: the sheet is sound.
fn put_page(sheet: &[u8], shown: Shown, out: &mut [u8]) -> Result<usize, Refusal>
    requires { Sound sheet.now × HasBlock (block_shown shown) }
    ensures result_value { result_asked result ≡ written_length (ask_room (page_of (graph_of sheet.now) (block_shown shown)) (length out.old)) }
    ensures out_after { out.new ≡ written_output (ask_room (page_of (graph_of sheet.now) (block_shown shown)) (length out.old)) out.old }
{
    let n = Sheet::node_count(sheet);
    let m = lines_of(n, shown);
    let size = LINE * m + LINE;
    if out.len() < size {
        return Err(Refusal::OutputLength { place: size });
    }
    put_head_of(&mut out[0..LINE], n, shown);
    put_lines(sheet, n, shown, m, &mut out[LINE..]);
    Ok(size)
}

// Prints the page of an arrow kind at the output's start: 1 to 4 of the sheet, 7, 33. The answer is its length.
pub fn print_arrow(sheet: &[u8], arrow: usize, out: &mut [u8]) -> Result<usize, Refusal>
    ensures result_value { result_asked result ≡ written_length (ask_print_arrow sheet.now arrow (length out.old)) }
    ensures out_after { out.new ≡ written_output (ask_print_arrow sheet.now arrow (length out.old)) out.old }
{
    Sheet::check(sheet).passed()?;
    if arrow >= Sheet::ARROWS {
        return Err(Refusal::BitRange { place: 0 });
    }
    put_page(sheet, Shown::Arrows(arrow), out)
}

// Prints the label page in the same way: 1 to 4 of the sheet, 33.
pub fn print_labels(sheet: &[u8], out: &mut [u8]) -> Result<usize, Refusal>
    ensures result_value { result_asked result ≡ written_length (ask_print_labels sheet.now (length out.old)) }
    ensures out_after { out.new ≡ written_output (ask_print_labels sheet.now (length out.old)) out.old }
{
    Sheet::check(sheet).passed()?;
    put_page(sheet, Shown::Labels, out)
}
