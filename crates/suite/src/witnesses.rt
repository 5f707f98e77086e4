// What breaks a rule.
ghost use Rattle.std.specs.Prelude.{◌≡◌};
ghost use Rattle.answer.specs.Answers.{result_asked};
ghost use Rattle.witness.specs.Witnessed.{ask_witness};
ghost use Rattle.suite.specs.Witnesses.{witness_numbers_def};

use answer::Refusal;
use witness::Witness;

// Number and place of an answer and, after done, the witness: its kind, a node or a pair, and all nodes for kind 1. 0 each after a refusal.
// The kind is 0 where the rule holds, 1 for the lowest node, 2 for the lowest pair, 3 where nothing can be named.
#[repr(C)]
#[derive(Clone, Copy)]
pub struct WitnessNumbers {
    pub number: usize,
    pub place: usize,
    pub kind: usize,
    pub first: usize,
    pub second: usize,
    pub nodes: u64,
}

// The numbers of a witness after done.
fn found_numbers(kind: usize, first: usize, second: usize, nodes: u64) -> WitnessNumbers
    ensures { result ≡ record { number = 0; place = 0; kind = kind; first = first; second = second; nodes = nodes } }
{
    WitnessNumbers {
        number: 0,
        place: 0,
        kind,
        first,
        second,
        nodes,
    }
}

impl From<Result<Witness, Refusal>> for WitnessNumbers {
    ghost from_gives = { λ found r. r ≡ witness_numbers_def (result_asked found) };

    fn from(found: Result<Witness, Refusal>) -> WitnessNumbers {
        match found {
            Ok(Witness::Nothing) => found_numbers(0, 0, 0, 0),
            Ok(Witness::LowestNode { first, nodes }) => found_numbers(1, first, 0, nodes),
            Ok(Witness::LowestPair { first, second }) => found_numbers(2, first, second, 0),
            Ok(Witness::Unnamed) => found_numbers(3, 0, 0, 0),
            Err(r) => WitnessNumbers {
                number: r.number(),
                place: r.place(),
                kind: 0,
                first: 0,
                second: 0,
                nodes: 0,
            },
        }
    }
}

#[unsafe(no_mangle)]
pub extern "C" fn zamiathen_witness(sheet: &[u8], rule: &[u8]) -> WitnessNumbers
    ensures { result ≡ witness_numbers_def (ask_witness sheet.now rule.now) }
{
    WitnessNumbers::from(witness::find(sheet, rule))
}
