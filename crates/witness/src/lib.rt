// What breaks a rule: the lowest node or pair that is where it must not be.

#![tactic(auto)]

ghost use Rattle.std.specs.Prelude.{◌≡◌, false, not, ◌&&◌, cond, ◌≤◌, ◌<◌, length, get_or};
ghost use Rattle.answer.specs.Answers.{result_asked};
ghost use Rattle.logic.specs.Syntax.{Expr, rule};
ghost use Rattle.logic.specs.Graph.{Pairs, all_below, implies};
ghost use Rattle.logic.specs.Meaning.{value};
ghost use Rattle.logic.specs.Limits.{ranges, max_nodes};
ghost use Rattle.logic.specs.Witness.{nothing, pairs};
ghost use Rattle.sheet.specs.Sheet.{graph_of, Rows};
ghost use Rattle.sheet.specs.Questions.{Sound};
ghost use Rattle.text.specs.Stands.{Stands, SomeStands};
ghost use Rattle.eval.specs.Evaluated.{Opened};
ghost use Rattle.witness.specs.Witnessed.{witness, WitnessOf, ask_witness};
ghost use Rattle.witness.specs.Walked.{NoPair, IsWalked};

use answer::Refusal;
use sheet::Sheet;
use text::Text;

// What breaks a rule; `witness_kind` and the three after it (specs/Witnessed.antt) give the numbers of each case, which C sees.
#[derive(Clone, Copy)]
pub enum Witness {
    // the rule holds
    Nothing,
    // the lowest node that breaks it, and all that do
    LowestNode { first: usize, nodes: u64 },
    // the lowest pair
    LowestPair { first: usize, second: usize },
    // the rule is broken, but nothing can be named
    Unnamed,
}

// 22: the lowest pair of a that is not in b.
fn first_pair(n: usize, a: &[u64], b: &[u64]) -> Witness
    requires { (n ≤ max_nodes) × (length a.now ≡ 64) × (length b.now ≡ 64) }
    ensures { (v w : Pairs) → Rows n v a.now → Rows n w b.now
        → result ≡ witness n (cond (all_below n (λ i. all_below n (λ j. implies (v i j) (w i j)))) nothing (pairs (λ i j. v i j && not (w i j)))) }
{
    for i in 0..n {
        let x = bitset::minus(a[i], b[i]);
        if x > 0 {
            return Witness::LowestPair {
                first: i,
                second: bitset::first(x),
            };
        }
    }
    Witness::Nothing
}

// 21: the nodes of the first expression that are not in the second.
fn outside_nodes(sheet: &[u8], n: usize, all: u64, text: &[u8], at: usize) -> Witness
    requires { Opened sheet.now n all × SomeStands (ranges n) text.now at rule × (get_or text.now at 0 ≤ 0x21) }
    ensures { (e : Expr rule) → Stands (ranges n) text.now at e → WitnessOf sheet.now n result e }
{
    let e = eval::eval_node(sheet, n, all, text, at + 1);
    let f = eval::eval_node(sheet, n, all, text, e.next);
    let x = bitset::minus(e.set, f.set);
    if x > 0 {
        Witness::LowestNode {
            first: bitset::first(x),
            nodes: x,
        }
    } else {
        Witness::Nothing
    }
}

// 22: the pairs of the first expression that are not in the second.
fn outside_pairs(sheet: &[u8], n: usize, all: u64, text: &[u8], at: usize) -> Witness
    requires { Opened sheet.now n all × SomeStands (ranges n) text.now at rule × (0x21 < get_or text.now at 0) × (get_or text.now at 0 ≤ 0x22) }
    ensures { (e : Expr rule) → Stands (ranges n) text.now at e → WitnessOf sheet.now n result e }
{
    let mut rows = [0u64; 64];
    let second = eval::eval_arrow(sheet, n, all, text, at + 1, &mut rows);
    let mut other = [0u64; 64];
    eval::eval_arrow(sheet, n, all, text, second, &mut other);
    first_pair(n, &rows, &other)
}

// The witness of a broken rule that is neither a 25 nor a 26. Inner, as are the two above: the rule stands at `at`.
fn name_part(sheet: &[u8], n: usize, all: u64, text: &[u8], at: usize) -> Witness
    requires { Opened sheet.now n all × SomeStands (ranges n) text.now at rule × NoPair (get_or text.now at 0) }
    ensures { (e : Expr rule) → Stands (ranges n) text.now at e → value (graph_of sheet.now) e ≡ false → WitnessOf sheet.now n result e }
{
    match text[at] {
        0x21 => outside_nodes(sheet, n, all, text, at),
        0x22 => outside_pairs(sheet, n, all, text, at),
        0x23 => {
            let i = usize::from(text[at + 1]);
            Witness::LowestNode {
                first: i,
                nodes: bitset::only(i),
            }
        }
        0x24 => Witness::LowestPair {
            first: usize::from(text[at + 1]),
            second: usize::from(text[at + 2]),
        },
        _ => Witness::Unnamed,
    }
}

// The result of a walk along a rule: if the rule is broken, where the part that breaks it stands, and where the text goes on.
#[derive(Clone, Copy)]
struct Walked {
    broken: Option<usize>,
    next: usize,
}

// Walks to the part that breaks a rule: of a 25 into its first rule or, where that one holds, into its second; of a 26 into its second.
// Each part is evaluated once. Inner: the rule stands at `at`; one call for each level.
fn walk(sheet: &[u8], n: usize, all: u64, text: &[u8], at: usize) -> Walked
    requires { Opened sheet.now n all × SomeStands (ranges n) text.now at rule }
    ensures { (e : Expr rule) → Stands (ranges n) text.now at e → IsWalked sheet.now n text.now at e result.broken result.next }
{
    let c = text[at];
    let first = at + 1;
    if c == 0x25 {
        let k = walk(sheet, n, all, text, first);
        match k.broken {
            None => walk(sheet, n, all, text, k.next),
            Some(part) => Walked {
                broken: Some(part),
                next: ends::past(text, k.next),
            },
        }
    } else if c == 0x26 {
        let t = eval::eval_rule(sheet, n, all, text, first);
        if t.holds {
            Walked {
                broken: None,
                next: ends::past(text, t.next),
            }
        } else {
            walk(sheet, n, all, text, t.next)
        }
    } else {
        let t = eval::eval_rule(sheet, n, all, text, at);
        Walked {
            broken: if t.holds { None } else { Some(at) },
            next: t.next,
        }
    }
}

// The witness of the rule at a text's start. Inner: the sheet is sound, and the rule is in range.
fn name_first(sheet: &[u8], text: &[u8]) -> Witness
    requires { Sound sheet.now × SomeStands (ranges (graph_of sheet.now).n) text.now 0 rule }
    ensures { (e : Expr rule) → Stands (ranges (graph_of sheet.now).n) text.now 0 e → WitnessOf sheet.now (graph_of sheet.now).n result e }
{
    let n = Sheet::node_count(sheet);
    let all = Sheet::all_nodes(sheet);
    let w = walk(sheet, n, all, text, 0);
    match w.broken {
        None => Witness::Nothing,
        Some(part) => name_part(sheet, n, all, text, part),
    }
}

// What breaks the first rule of a text, carried or not: questions 1 to 4 of the sheet, then 12 to 15 of the rule.
// After 41 of enter the scratch begins with the carried rule: its witness on the sheet before the edit is the witness of the rule after the edit.
pub fn find(sheet: &[u8], text: &[u8]) -> Result<Witness, Refusal>
    ensures { result_asked result ≡ ask_witness sheet.now text.now }
{
    Sheet::check(sheet).passed()?;
    let seen = &text[..Text::looked_at(text.len())];
    Text::check_first_carried(seen, Sheet::node_count(sheet)).passed()?;
    Ok(name_first(sheet, seen))
}
