// The program `enter` of document 01: reads a sheet, a book and an edit from standard input, enters the edit, and writes the answer and the sheet.

#![tactic(auto)]

use sheet::Sheet;
use std::io;
use std::io::{Read, Write};

// Reads the whole input, enters the edit and writes the whole output; none, and nothing written, when the input ends early.
fn enter<R: Read, W: Write>(from: &mut R, out: &mut W) -> Option<()> {
    let mut sheet = [0u8; Sheet::BYTES];
    let mut book = [0u8; input::TEXT_BYTES];
    let b = input::read_sheet_and_book(from, &mut sheet, &mut book)?;
    let mut edit = [0u8; input::TEXT_BYTES];
    let e = input::read_text(from, &mut edit)?;
    let answer = printed::enter_line(&mut sheet, &book[0..b], &edit[0..e]);
    input::write(out, &answer);
    input::write(out, &sheet);
    Some(())
}

fn main(rt: HostRuntime) {
    let mut from = rt.reader();
    let mut out = io::writer(&rt);
    if enter(&mut from, &mut out).is_none() {
        input::write(&mut out, &printed::line::early());
    }
}
