// Evaluating expressions and rules where they stand in a text, on the graph that a sheet stores.
// Inner, all of them: the sheet is sound, and an expression in range stands at `at`. Levels have no bound here.
// A relation is written to `out`, which holds 64 zeros before; the function then returns where the text goes on.
// Each level takes stack: tests/c/stack.c measures enter on carried rules of 255 levels.

#![tactic(auto)]

ghost use Rattle.std.specs.Prelude.{◌≡◌, true, ℕ, ◌<◌, ◌≤◌, length, get_or, replicate};
ghost use Rattle.logic.specs.Syntax.{Expr, «node», arrow, rule};
ghost use Rattle.logic.specs.Limits.{Ranges, ranges, max_nodes};
ghost use Rattle.logic.specs.Meaning.{value};
ghost use Rattle.sheet.specs.Sheet.{graph_of};
ghost use Rattle.sheet.specs.Questions.{Sound};
ghost use Rattle.text.specs.Stands.{Stands, SomeStands};
ghost use Rattle.eval.specs.Evaluated.{Opened, Used, IsSet, IsSetWithin, IsRelation, IsEitherWay, IsCombined, IsCombinedWay, IsTruth, IsSettled, IsTurned, Upto, SomeUpto, decided};

use logic::{Arrow, Label, Node};
use sheet::Sheet;

// A set of nodes, and where the text goes on.
#[derive(Clone, Copy)]
pub struct NodeSet {
    pub set: u64,
    pub next: usize,
}

#[derive(Clone, Copy)]
pub struct Truth {
    pub holds: bool,
    pub next: usize,
}

// Whether a rule holds, and how many rules are left to skip from `next` on to where it ends.
#[derive(Clone, Copy)]
struct Settled {
    holds: bool,
    next: usize,
    left: usize,
}

// Whether an arrow expression is turned, as by leading 12s of an odd number, and where the text goes on.
#[derive(Clone, Copy)]
pub struct Turned {
    pub turned: bool,
    pub next: usize,
}

// 01 to 04, for the nodes of `within`.
fn leaf_node(sheet: &[u8], n: usize, within: u64, text: &[u8], at: usize) -> NodeSet
    requires { Sound sheet.now × (n ≡ (graph_of sheet.now).n) × (n ≤ max_nodes) × Used sheet.now n within × SomeStands (ranges n) text.now at node × (get_or text.now at 0 ≤ 0x04) }
    ensures { (e : Expr node) → Stands (ranges n) text.now at e → IsSetWithin sheet.now n at e within result.set result.next }
{
    let c = text[at];
    if c <= 0x01 {
        NodeSet {
            set: within,
            next: at + 1,
        }
    } else if c <= 0x02 {
        NodeSet {
            set: 0,
            next: at + 1,
        }
    } else if c <= 0x03 {
        NodeSet {
            set: bitset::both(within, Sheet::label_word(sheet, Label(text[at + 1]))),
            next: at + 2,
        }
    } else {
        NodeSet {
            set: rows::nominal(within, Node(text[at + 1])),
            next: at + 2,
        }
    }
}

// 11.
fn arrow_kind(sheet: &[u8], n: usize, all: u64, text: &[u8], at: usize, out: &mut [u64]) -> usize
    requires { Opened sheet.now n all × SomeStands (ranges n) text.now at arrow × (get_or text.now at 0 ≤ 0x11) × (out.old ≡ replicate 64 0) }
    ensures { ((e : Expr arrow) → Stands (ranges n) text.now at e → IsRelation sheet.now n at e out.new result) × (length out.new ≡ 64) }
{
    rows::relations::arrow_rows(sheet, n, Arrow(text[at + 1]), out);
    at + 2
}

// 17.
fn one_pair(sheet: &[u8], n: usize, all: u64, text: &[u8], at: usize, out: &mut [u64]) -> usize
    requires { Opened sheet.now n all × SomeStands (ranges n) text.now at arrow × (0x16 < get_or text.now at 0) × (out.old ≡ replicate 64 0) }
    ensures { ((e : Expr arrow) → Stands (ranges n) text.now at e → IsRelation sheet.now n at e out.new result) × (length out.new ≡ 64) }
{
    rows::relations::pair_rows(all, Node(text[at + 1]), Node(text[at + 2]), out);
    at + 3
}

// 13, 14, 15 with 11 as second operand.
fn combine_kind(c: u8, sheet: &[u8], n: usize, text: &[u8], at: usize, out: &mut [u64]) -> usize
    requires { Sound sheet.now × (n ≡ (graph_of sheet.now).n) × (n ≤ max_nodes) × SomeStands (ranges n) text.now at arrow × (get_or text.now at 0 ≤ 0x11) × (length out.old ≡ 64) }
    ensures { ((e : Expr arrow) → Stands (ranges n) text.now at e → IsCombined sheet.now n at c e out.old out.new result) × (length out.new ≡ 64) }
{
    rows::relations::combine_kind(c, sheet, n, Arrow(text[at + 1]), out);
    at + 2
}

// 13, 15 with 17 as second operand.
fn combine_pair(
    c: u8,
    sheet: &[u8],
    n: usize,
    all: u64,
    text: &[u8],
    at: usize,
    out: &mut [u64],
) -> usize
    requires { Opened sheet.now n all × SomeStands (ranges n) text.now at arrow × (0x16 < get_or text.now at 0) × (c ≡ 0x14 → ⊥) × (length out.old ≡ 64) }
    ensures { ((e : Expr arrow) → Stands (ranges n) text.now at e → IsCombined sheet.now n at c e out.old out.new result) × (length out.new ≡ 64) }
{
    rows::relations::combine_pair(c, all, Node(text[at + 1]), Node(text[at + 2]), out);
    at + 3
}

// Whether only one row changes: 13 or 15 with 17 as second operand.
fn one_row(c: u8, code: u8) -> bool
    ensures { result ≡ true → (0x16 < code) × (c ≡ 0x14 → ⊥) }
{
    code > 0x16 && c != 0x14
}

// How far after a quantifier's code its operands stand: 0A and 0B have a count between.
fn ahead(c: u8) -> usize
    ensures { (c ≤ 0x09 → result ≡ 1) × (0x09 < c → result ≡ 2) }
{
    if c <= 0x09 { 1 } else { 2 }
}

// Skips the 12s before an arrow expression: two of them cancel out.
fn behind_turns(n: usize, text: &[u8], at: usize) -> Turned
    requires { SomeStands (ranges n) text.now at arrow }
    ensures { (e : Expr arrow) → Stands (ranges n) text.now at e → IsTurned n text.now at e result.turned result.next }
{
    let mut next = at;
    let mut turned = false;
    while text[next] == 0x12 {
        next += 1;
        turned = !turned;
    }
    Turned { turned, next }
}

// The set that a node expression means, for the nodes of `within`. An expression that no node needs is skipped, and the second of two operands
// is evaluated only for the nodes that the first leaves open.
#[cycle(combine_arrow_either_way_node_within)]
fn node_within(sheet: &[u8], n: usize, all: u64, within: u64, text: &[u8], at: usize) -> NodeSet
    requires { Opened sheet.now n all × Used sheet.now n within × SomeStands (ranges n) text.now at node }
    ensures { (e : Expr node) → Stands (ranges n) text.now at e → IsSetWithin sheet.now n at e within result.set result.next }
{
    if within == 0 {
        return NodeSet {
            set: 0,
            next: ends::past(text, at),
        };
    }
    let c = text[at];
    if c <= 0x04 {
        leaf_node(sheet, n, within, text, at)
    } else if c <= 0x05 {
        let e = node_within(sheet, n, all, within, text, at + 1);
        NodeSet {
            set: bitset::minus(within, e.set),
            next: e.next,
        }
    } else if c <= 0x06 {
        let e = node_within(sheet, n, all, within, text, at + 1);
        node_within(sheet, n, all, e.set, text, e.next)
    } else if c <= 0x07 {
        let e = node_within(sheet, n, all, within, text, at + 1);
        let f = node_within(sheet, n, all, bitset::minus(within, e.set), text, e.next);
        NodeSet {
            set: bitset::either(e.set, f.set),
            next: f.next,
        }
    } else {
        let k = ahead(c);
        let m = text[at + k - 1];
        let t = behind_turns(n, text, at + k);
        let p = t.next;
        if rows::over_kinds::straight(text[p], c, t.turned) {
            let e = node_within(sheet, n, all, all, text, p + 2);
            NodeSet {
                set: rows::over_kinds::quantified_kind(
                    c,
                    m,
                    sheet,
                    n,
                    all,
                    within,
                    t.turned,
                    Arrow(text[p + 1]),
                    e.set,
                ),
                next: e.next,
            }
        } else {
            let mut rows = [0u64; 64];
            let r = either_way(sheet, n, all, text, at + k, &mut rows);
            let e = node_within(sheet, n, all, all, text, r.next);
            NodeSet {
                set: rows::over_rows::quantified(c, m, n, all, within, r.turned, &mut rows, e.set),
                next: e.next,
            }
        }
    }
}

// The relation that an arrow expression means, in rows or, turned, in columns: 12 moves no bit, and rows and columns are exchanged only where two
// relations of different orientation are combined.
#[cycle(combine_arrow_either_way_node_within)]
fn either_way(sheet: &[u8], n: usize, all: u64, text: &[u8], at: usize, out: &mut [u64]) -> Turned
    requires { Opened sheet.now n all × SomeStands (ranges n) text.now at arrow × (out.old ≡ replicate 64 0) }
    ensures { ((e : Expr arrow) → Stands (ranges n) text.now at e → IsEitherWay sheet.now n at e out.new result.turned result.next) × (length out.new ≡ 64) }
{
    let c = text[at];
    if c <= 0x11 {
        let next = arrow_kind(sheet, n, all, text, at, out);
        Turned {
            turned: false,
            next,
        }
    } else if c <= 0x12 {
        let r = either_way(sheet, n, all, text, at + 1, out);
        Turned {
            turned: !r.turned,
            next: r.next,
        }
    } else if c <= 0x15 {
        let r = either_way(sheet, n, all, text, at + 1, out);
        combine_arrow(c, sheet, n, all, text, r, out)
    } else if c <= 0x16 {
        let r = either_way(sheet, n, all, text, at + 1, out);
        let e = node_within(sheet, n, all, all, text, r.next);
        rows::relations::ending_rows(n, r.turned, out, e.set);
        Turned {
            turned: r.turned,
            next: e.next,
        }
    } else {
        let next = one_pair(sheet, n, all, text, at, out);
        Turned {
            turned: false,
            next,
        }
    }
}

// 13, 14, 15: combines the relation that the second operand means with what the first one left in `out`; only an operand that is not a leaf needs
// rows of its own. It is evaluated where it stands: the unread length fell when this function was called, not again here. So the measure is twice the
// unread length, here plus one.
#[cycle(combine_arrow_either_way_node_within)]
fn combine_arrow(
    c: u8,
    sheet: &[u8],
    n: usize,
    all: u64,
    text: &[u8],
    first: Turned,
    out: &mut [u64],
) -> Turned
    requires { Opened sheet.now n all × SomeStands (ranges n) text.now first.next arrow × (length out.old ≡ 64) }
    ensures { ((e : Expr arrow) → Stands (ranges n) text.now first.next e
        → IsCombinedWay sheet.now n first.next c e first.turned out.old out.new result.turned result.next) × (length out.new ≡ 64) }
{
    let second = first.next;
    let t = behind_turns(n, text, second);
    let p = t.next;
    let d = text[p];
    if d <= 0x11 {
        rows::relations::face_rows(n, first.turned, t.turned, out);
        let next = combine_kind(c, sheet, n, text, p, out);
        Turned {
            turned: t.turned,
            next,
        }
    } else if one_row(c, d) {
        rows::relations::face_rows(n, first.turned, t.turned, out);
        let next = combine_pair(c, sheet, n, all, text, p, out);
        Turned {
            turned: t.turned,
            next,
        }
    } else {
        let mut other = [0u64; 64];
        let r = either_way(sheet, n, all, text, second, &mut other);
        rows::relations::face_rows(n, first.turned, r.turned, out);
        rows::relations::combine_rows(c, n, out, &other);
        Turned {
            turned: r.turned,
            next: r.next,
        }
    }
}

// The relation that an arrow expression means.
pub fn eval_arrow(
    sheet: &[u8],
    n: usize,
    all: u64,
    text: &[u8],
    at: usize,
    out: &mut [u64],
) -> usize
    requires { Opened sheet.now n all × SomeStands (ranges n) text.now at arrow × (out.old ≡ replicate 64 0) }
    ensures { ((e : Expr arrow) → Stands (ranges n) text.now at e → IsRelation sheet.now n at e out.new result) × (length out.new ≡ 64) }
{
    let r = either_way(sheet, n, all, text, at, out);
    rows::relations::face_rows(n, r.turned, false, out);
    r.next
}

// The set that a node expression means.
pub fn eval_node(sheet: &[u8], n: usize, all: u64, text: &[u8], at: usize) -> NodeSet
    requires { Opened sheet.now n all × SomeStands (ranges n) text.now at node }
    ensures { (e : Expr node) → Stands (ranges n) text.now at e → IsSet sheet.now n at e result.set result.next }
{
    node_within(sheet, n, all, all, text, at)
}

// 21: the second expression is evaluated for the nodes of the first.
fn sub_nodes(sheet: &[u8], n: usize, all: u64, text: &[u8], at: usize) -> Truth
    requires { Opened sheet.now n all × SomeStands (ranges n) text.now at rule × (get_or text.now at 0 ≤ 0x21) }
    ensures { (e : Expr rule) → Stands (ranges n) text.now at e → IsTruth sheet.now at e result.holds result.next }
{
    let e = node_within(sheet, n, all, all, text, at + 1);
    let f = node_within(sheet, n, all, e.set, text, e.next);
    Truth {
        holds: rows::set_in(e.set, f.set),
        next: f.next,
    }
}

// 22.
fn sub_arrows(sheet: &[u8], n: usize, all: u64, text: &[u8], at: usize) -> Truth
    requires { Opened sheet.now n all × SomeStands (ranges n) text.now at rule × (0x21 < get_or text.now at 0) × (get_or text.now at 0 ≤ 0x22) }
    ensures { (e : Expr rule) → Stands (ranges n) text.now at e → IsTruth sheet.now at e result.holds result.next }
{
    let mut rows = [0u64; 64];
    let second = eval_arrow(sheet, n, all, text, at + 1, &mut rows);
    let mut other = [0u64; 64];
    let next = eval_arrow(sheet, n, all, text, second, &mut other);
    Truth {
        holds: rows::relations::rows_in(n, &rows, &other),
        next,
    }
}

// 23: the expression is evaluated for that node.
fn node_in(sheet: &[u8], n: usize, all: u64, text: &[u8], at: usize) -> Truth
    requires { Opened sheet.now n all × SomeStands (ranges n) text.now at rule × (0x22 < get_or text.now at 0) × (get_or text.now at 0 ≤ 0x23) }
    ensures { (e : Expr rule) → Stands (ranges n) text.now at e → IsTruth sheet.now at e result.holds result.next }
{
    let i = text[at + 1];
    let e = node_within(sheet, n, all, rows::nominal(all, Node(i)), text, at + 2);
    Truth {
        holds: rows::node_in(e.set, Node(i)),
        next: e.next,
    }
}

// 24.
fn pair_in(sheet: &[u8], n: usize, all: u64, text: &[u8], at: usize) -> Truth
    requires { Opened sheet.now n all × SomeStands (ranges n) text.now at rule × (0x23 < get_or text.now at 0) × (get_or text.now at 0 ≤ 0x24) }
    ensures { (e : Expr rule) → Stands (ranges n) text.now at e → IsTruth sheet.now at e result.holds result.next }
{
    let mut rows = [0u64; 64];
    let next = eval_arrow(sheet, n, all, text, at + 3, &mut rows);
    Truth {
        holds: rows::relations::pair_in(&rows, Node(text[at + 1]), Node(text[at + 2])),
        next,
    }
}

// 21 to 24: the rules without a rule inside. A separate function, so that a level of 25, 26 or 27 keeps no relation on the stack.
fn leaf_rule(sheet: &[u8], n: usize, all: u64, text: &[u8], at: usize) -> Truth
    requires { Opened sheet.now n all × SomeStands (ranges n) text.now at rule × (get_or text.now at 0 ≤ 0x24) }
    ensures { (e : Expr rule) → Stands (ranges n) text.now at e → IsTruth sheet.now at e result.holds result.next }
{
    let c = text[at];
    if c <= 0x21 {
        sub_nodes(sheet, n, all, text, at)
    } else if c <= 0x22 {
        sub_arrows(sheet, n, all, text, at)
    } else if c <= 0x23 {
        node_in(sheet, n, all, text, at)
    } else {
        pair_in(sheet, n, all, text, at)
    }
}

// 25, 26: whether the first rule alone decides.
fn decided(c: u8, k: bool) -> bool
    ensures { result ≡ decided c k }
{
    if c == 0x25 { !k } else { k }
}

// The place after a number of rules that stand one after the other. Inner: the text was read before.
fn past_rules(text: &[u8], at: usize, rules: usize) -> usize
    requires { SomeUpto text.now rules at }
    ensures { (l : Ranges) (end : ℕ) → Upto l text.now end rules at → result ≡ end }
{
    let mut p = at;
    for _ in 0..rules {
        p = ends::past(text, p);
    }
    p
}

// Whether a rule holds. Where the first rule of a 25 or 26 decides, the second is left, and skipped only if a later one is evaluated.
// An answer is taken apart and put together again: passed on whole, it is copied with the bytes between its fields, which takes longer.
fn settle_rule(sheet: &[u8], n: usize, all: u64, text: &[u8], at: usize) -> Settled
    requires { Opened sheet.now n all × SomeStands (ranges n) text.now at rule }
    ensures { (e : Expr rule) → Stands (ranges n) text.now at e → IsSettled sheet.now n text.now at e result.holds result.next result.left }
{
    let c = text[at];
    if c <= 0x24 {
        let k = leaf_rule(sheet, n, all, text, at);
        Settled {
            holds: k.holds,
            next: k.next,
            left: 0,
        }
    } else if c <= 0x26 {
        let k = settle_rule(sheet, n, all, text, at + 1);
        if decided(c, k.holds) {
            Settled {
                holds: k.holds,
                next: k.next,
                left: k.left + 1,
            }
        } else {
            let l = settle_rule(sheet, n, all, text, past_rules(text, k.next, k.left));
            Settled {
                holds: l.holds,
                next: l.next,
                left: l.left,
            }
        }
    } else {
        let k = settle_rule(sheet, n, all, text, at + 1);
        Settled {
            holds: !k.holds,
            next: k.next,
            left: k.left,
        }
    }
}

// Whether a rule holds, and where the text goes on. A rule without a rule inside, as most are, is evaluated without a call between.
pub fn eval_rule(sheet: &[u8], n: usize, all: u64, text: &[u8], at: usize) -> Truth
    requires { Opened sheet.now n all × SomeStands (ranges n) text.now at rule }
    ensures { (e : Expr rule) → Stands (ranges n) text.now at e → IsTruth sheet.now at e result.holds result.next }
{
    if text[at] <= 0x24 {
        let k = leaf_rule(sheet, n, all, text, at);
        return Truth {
            holds: k.holds,
            next: k.next,
        };
    }
    let k = settle_rule(sheet, n, all, text, at);
    Truth {
        holds: k.holds,
        next: past_rules(text, k.next, k.left),
    }
}

// Whether a rule holds, for callers that do not go on after it.
pub fn rule_holds(sheet: &[u8], n: usize, all: u64, text: &[u8], at: usize) -> bool
    requires { Opened sheet.now n all × SomeStands (ranges n) text.now at rule }
    ensures { (e : Expr rule) → Stands (ranges n) text.now at e → result ≡ value (graph_of sheet.now) e }
{
    let k = settle_rule(sheet, n, all, text, at);
    k.holds
}
