// Where expressions, steps and edits end, found from the code bytes alone: a table gives each code's length and number of operands.
// The end of the file has the 64 cells of names.

#![tactic(auto)]

ghost use Rattle.std.specs.Prelude.{◌≡◌, ◌+◌, ◌<◌, length, get_or};
ghost use Rattle.logic.specs.Syntax.{Edit};
ghost use Rattle.text.specs.Code.{edit_code};
ghost use Rattle.tree.specs.Tree.{Tree, size};
ghost use Rattle.tree.specs.Stack.{touched};
ghost use Rattle.ends.specs.Shapes.{shape_of, label_cell_def, arrow_cell_def, cell, At, Some};
ghost use Rattle.ends.specs.Edits.{EditAt, SomeEdit, NextAt};

use logic::{Arrow, Label};

// The shape of each code: the length of the code byte with its numbers, plus 4 for each operand, plus 16 for a name (03, 11); 0 if it is not a code.
// The table is in specs/Shapes.antt. A single `match` with constants, which the compiler turns into a table in read-only memory.
// Inner: callers pass a byte that is within the table.
#[tactic(auto, unfolding(crate::specs::Shapes::shapes))]
pub fn shape(code: u8) -> usize
    requires { code < 40 }
    ensures { result ≡ shape_of code }
{
    match code {
        0x01 => 1,
        0x02 => 1,
        0x03 => 18,
        0x04 => 2,
        0x05 => 5,
        0x06 => 9,
        0x07 => 9,
        0x08 => 9,
        0x09 => 9,
        0x0A => 10,
        0x0B => 10,
        0x11 => 18,
        0x12 => 5,
        0x13 => 9,
        0x14 => 9,
        0x15 => 9,
        0x16 => 9,
        0x17 => 3,
        0x21 => 9,
        0x22 => 9,
        0x23 => 6,
        0x24 => 7,
        0x25 => 9,
        0x26 => 9,
        0x27 => 5,
        _ => 0,
    }
}

// The place after the expression at `at`: each code is one of the expressions wanted and adds its operands to them.
// Inner: callers have read the text before.
pub fn past(text: &[u8], at: usize) -> usize
    requires { Some text.now at }
    ensures { (t : Tree) → At text.now at t → result ≡ at + size t }
{
    let mut p = at;
    let mut wanted: usize = 1;
    while 0 < wanted {
        let s = shape(text[p]);
        p += s % 4;
        wanted = wanted - 1 + s / 4 % 4;
    }
    p
}

// The place after the first step of the edit at `at`.
// Inner: callers have read the text before, and a step is there.
#[cycle(steps)]
pub fn next_step(text: &[u8], at: usize) -> usize
    requires { SomeEdit text.now at × (get_or text.now at 0 ≡ 0x30 → ⊥) }
    ensures { (Z : Edit) → EditAt text.now at Z → NextAt text.now at Z result }
{
    let c = text[at];
    if c != 0x35 {
        return past(text, at + 2);
    }
    let p = past(text, at + 1);
    let q = end_of(text, p);
    end_of(text, q)
}

// The place after the edit at `at`.
// Inner: callers have read the text before.
#[cycle(steps)]
pub fn end_of(text: &[u8], at: usize) -> usize
    requires { SomeEdit text.now at }
    ensures { (Z : Edit) → EditAt text.now at Z → result ≡ at + length (edit_code Z) }
{
    let mut p = at;
    while text[p] != 0x30 {
        p = next_step(text, p);
    }
    p + 1
}

// The cells: the tables of measuring and writing have a column for each of the 64 names, so a cell may be a label's or an arrow's.
// Labels and arrows get their cells here only; no other function makes a cell from a number.
fn label_cell(k: Label) -> usize
    ensures { result ≡ label_cell_def k.0 }
{
    k.0 as usize
}

fn arrow_cell(a: Arrow) -> usize
    ensures { result ≡ arrow_cell_def a.0 }
{
    Label::COUNT as usize + a.0 as usize
}

// The cell of a name in a text, 03 k or 11 a: the code gives the sort of the number.
#[tactic(auto, unfolding(crate::specs::Shapes::cell))]
pub fn cell_of(code: u8, number: u8) -> usize
    ensures { result ≡ cell code number }
{
    if code == 0x03 {
        label_cell(Label(number))
    } else {
        arrow_cell(Arrow(number))
    }
}

// The code of the names that a step changes. With the step's number it makes the name.
pub fn name_code(op: u8) -> u8
    ensures { result ≡ touched op }
{
    if op < 0x33 { 0x03 } else { 0x11 }
}
