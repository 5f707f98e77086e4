// The program `replay` of document 02, item 4: reads a sheet, a book and a log of edits from standard input, enters the edits, and writes a line for each,
// a line for a bad block, and last the sheet.

#![tactic(auto)]

use log_blocks::Held;
use sheet::Sheet;
use std::io;
use std::io::{Read, Write};

// Replays the log on the sheet, block by block, and writes its lines.
fn replay_log<R: Read, W: Write>(from: &mut R, out: &mut W, sheet: &mut [u8], book: &[u8]) {
    let mut block = [0u8; seal::BLOCK];
    let mut edit = [0u8; log_blocks::KEPT];
    let mut next = Some(Held { number: 0, kept: 0 });
    while let Some(held) = next {
        let got = input::read_up_to(from, &mut block);
        let told = log_blocks::round(&block[0..got], held, &mut edit, sheet, book);
        if let Some(line) = told.line {
            input::write(out, &line);
        }
        next = told.held;
    }
}

// Reads the whole input, replays the log and writes the whole output; none, and nothing written, when the input ends before the log.
fn replay<R: Read, W: Write>(from: &mut R, out: &mut W) -> Option<()> {
    let mut sheet = [0u8; Sheet::BYTES];
    let mut book = [0u8; input::TEXT_BYTES];
    let b = input::read_sheet_and_book(from, &mut sheet, &mut book)?;
    replay_log(from, out, &mut sheet, &book[0..b]);
    input::write(out, &sheet);
    Some(())
}

fn main(rt: HostRuntime) {
    let mut from = rt.reader();
    let mut out = io::writer(&rt);
    if replay(&mut from, &mut out).is_none() {
        input::write(&mut out, &printed::line::early());
    }
}
