// Sets of nodes, a word each, with their counts.
ghost use Rattle.std.specs.Prelude.{◌≡◌};
ghost use Rattle.answer.specs.Answers.{result_asked};
ghost use Rattle.node_sets.specs.NodeSets.{ask_nodes, ask_label_set, ask_row_set};
ghost use Rattle.suite.specs.SetNumbers.{set_numbers_def};

use crate::sheets::byte;
use answer::Refusal;
use logic::{Arrow, Label, Node};
use node_sets::NodeSet;

// Number and place of an answer, a count and a set: bit i is node i. 0 each after a refusal.
#[repr(C)]
#[derive(Clone, Copy)]
pub struct NodeSetNumbers {
    pub number: usize,
    pub place: usize,
    pub count: usize,
    pub set: u64,
}

impl From<Result<NodeSet, Refusal>> for NodeSetNumbers {
    ghost from_gives = { λ read r. r ≡ set_numbers_def (result_asked read) };

    fn from(read: Result<NodeSet, Refusal>) -> NodeSetNumbers {
        match read {
            Ok(s) => NodeSetNumbers {
                number: 0,
                place: 0,
                count: s.count,
                set: s.set,
            },
            Err(r) => NodeSetNumbers {
                number: r.number(),
                place: r.place(),
                count: 0,
                set: 0,
            },
        }
    }
}

#[unsafe(no_mangle)]
pub extern "C" fn zamiathen_nodes(sheet: &[u8]) -> NodeSetNumbers
    ensures { result ≡ set_numbers_def (ask_nodes sheet.now) }
{
    NodeSetNumbers::from(node_sets::nodes(sheet))
}

#[unsafe(no_mangle)]
pub extern "C" fn zamiathen_label_set(sheet: &[u8], label: usize) -> NodeSetNumbers
    ensures { result ≡ set_numbers_def (ask_label_set sheet.now label) }
{
    NodeSetNumbers::from(node_sets::label_set(sheet, Label(byte(label))))
}

#[unsafe(no_mangle)]
pub extern "C" fn zamiathen_row_set(sheet: &[u8], arrow: usize, from: usize) -> NodeSetNumbers
    ensures { result ≡ set_numbers_def (ask_row_set sheet.now arrow from) }
{
    NodeSetNumbers::from(node_sets::row_set(sheet, Arrow(byte(arrow)), Node(byte(from))))
}
