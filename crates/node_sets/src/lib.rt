// Sets of a sheet's nodes, a word each: those in use, those with a label, those that an arrow reaches from a node.

#![tactic(auto)]

ghost use Rattle.std.specs.Prelude.{◌≡◌, ℕ, ◌≤◌};
ghost use Rattle.answer.specs.Answers.{result_asked};
ghost use Rattle.logic.specs.Graph.{Nodes};
ghost use Rattle.bitset.specs.Words.{set_of};
ghost use Rattle.node_sets.specs.NodeSets.{members, ask_nodes, ask_label_set, ask_row_set};

use answer::Refusal;
use logic::{Arrow, Label, Node};
use sheet::Sheet;

// Nodes of a sheet: bit i of the word is node i.
#[derive(Clone, Copy)]
pub struct NodeSet {
    pub count: usize,
    pub set: u64,
}

// A set with the count of its members.
fn counted(set: u64) -> NodeSet
    ensures { (n : ℕ) (v : Nodes) → n ≤ 64 → set ≡ set_of n v → result ≡ members n v }
{
    NodeSet {
        count: bitset::count_common(set, set) as usize,
        set,
    }
}

// How many nodes the sheet has, and which of them are in use: questions 1 to 4.
pub fn nodes(sheet: &[u8]) -> Result<NodeSet, Refusal>
    ensures { result_asked result ≡ ask_nodes sheet.now }
{
    Sheet::check(sheet).passed()?;
    Ok(NodeSet {
        count: Sheet::node_count(sheet),
        set: Sheet::all_nodes(sheet),
    })
}

// The nodes with label k and how many they are: questions 1 to 4 of the sheet, then 7.
pub fn label_set(sheet: &[u8], k: Label) -> Result<NodeSet, Refusal>
    ensures { result_asked result ≡ ask_label_set sheet.now k.0 }
{
    Sheet::check(sheet).passed()?;
    if (k.0 as usize) < Sheet::LABELS {
        return Ok(counted(Sheet::label_word(sheet, k)));
    }
    Err(Refusal::BitRange { place: 0 })
}

// The nodes to which arrow a goes from node i and how many they are: questions 1 to 4 of the sheet, then 7.
pub fn row_set(sheet: &[u8], a: Arrow, i: Node) -> Result<NodeSet, Refusal>
    ensures { result_asked result ≡ ask_row_set sheet.now a.0 i.0 }
{
    Sheet::check(sheet).passed()?;
    if (a.0 as usize) < Sheet::ARROWS && (i.0 as usize) < Sheet::node_count(sheet) {
        return Ok(counted(Sheet::row_word(sheet, a, i)));
    }
    Err(Refusal::BitRange { place: 0 })
}
