// What a C program calls: numbers and byte slices, thin over the proved library. Each exported function is declared in include/zamiathen.h.

#![tactic(auto)]

ghost use Rattle.std.specs.Prelude.{◌≡◌};
ghost use Rattle.answer.specs.Answers.{asked, result_asked};
ghost use Rattle.suite.specs.Numbers.{numbers, length_numbers};

use answer::{Answer, Refusal};

mod edits;
mod games;
mod nodes;
mod paper;
mod plans;
mod rules;
mod sets;
mod sheets;
mod small;
mod version;
mod witnesses;
mod words;

// Number and place of an answer, 0 and 0 for done.
#[repr(C)]
#[derive(Clone, Copy)]
pub struct Numbers {
    pub number: usize,
    pub place: usize,
}

// The same, and a bit: 0 after a refusal.
#[repr(C)]
#[derive(Clone, Copy)]
pub struct BitNumbers {
    pub number: usize,
    pub place: usize,
    pub bit: usize,
}

// The same, and a length: 0 after a refusal.
#[repr(C)]
#[derive(Clone, Copy)]
pub struct LengthNumbers {
    pub number: usize,
    pub place: usize,
    pub length: usize,
}

// The same, and the first broken rule as a part of the book: 0 and 0 in every other outcome.
#[repr(C)]
#[derive(Clone, Copy)]
pub struct PartNumbers {
    pub number: usize,
    pub place: usize,
    pub start: usize,
    pub length: usize,
}

// The same, and the four counts of small sheets: 0 each after a refusal.
#[repr(C)]
#[derive(Clone, Copy)]
pub struct CountNumbers {
    pub number: usize,
    pub place: usize,
    pub kept: usize,
    pub lost: usize,
    pub repaired: usize,
    pub broken: usize,
}

impl From<Answer> for Numbers {
    ghost from_gives = { λ a r. r ≡ numbers (asked a) };

    fn from(a: Answer) -> Numbers {
        Numbers {
            number: a.number(),
            place: a.place(),
        }
    }
}

impl From<Result<usize, Refusal>> for LengthNumbers {
    ghost from_gives = { λ written r. r ≡ length_numbers (result_asked written) };

    fn from(written: Result<usize, Refusal>) -> LengthNumbers {
        match written {
            Ok(length) => LengthNumbers {
                number: 0,
                place: 0,
                length,
            },
            Err(r) => LengthNumbers {
                number: r.number(),
                place: r.place(),
                length: 0,
            },
        }
    }
}
