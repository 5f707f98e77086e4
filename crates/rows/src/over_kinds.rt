// Quantifiers over an arrow kind, straight from the sheet: its rows are not copied.
ghost use Rattle.std.specs.Prelude.{◌≡◌, true, ◌&&◌, ◌^◌, ◌<◌, ◌≤◌};
ghost use Rattle.logic.specs.Graph.{any_below};
ghost use Rattle.bitset.specs.Words.{set_of, member};
ghost use Rattle.sheet.specs.Sheet.{graph_of};
ghost use Rattle.rows.specs.Operations.{quantified, turn, Among, OfSheet};

use crate::over;
use logic::{Arrow, Node};
use sheet::Sheet;

// The ends of all arrows of that kind. Inner: the sheet is sound, n is its node count, and it has that arrow kind.
pub fn kind_all_ends(sheet: &[u8], n: usize, a: Arrow) -> u64
    requires { OfSheet sheet.now n a.0 }
    ensures { result ≡ set_of n (λ j. any_below n (λ i. (graph_of sheet.now).joined a.0 i j)) }
{
    over::all_ends(n, &|i| Sheet::row_word(sheet, a, Node(i as u8)))
}

// Whether an operand with that code is evaluated straight from the sheet: an arrow kind, by rows, or for 08 and 09 by columns. 0A and 0B count along rows,
// and a reversed arrow has rows only once it is reversed.
pub fn straight(code: u8, c: u8, turned: bool) -> bool
    ensures { result ≡ true → (code ≤ 0x11) × (turned ≡ true → c ≤ 0x09) }
{
    code <= 0x11 && (!turned || c <= 0x09)
}

// 08, 09, 0A, 0B over 11 or over 12 11: the nodes of `within` that meet it. Inner: c is a quantifier's code, and `straight` allows it.
pub fn quantified_kind(
    c: u8,
    m: u8,
    sheet: &[u8],
    n: usize,
    all: u64,
    within: u64,
    turned: bool,
    a: Arrow,
    e: u64,
) -> u64
    requires { OfSheet sheet.now n a.0 × (within < 2 ^ n) × (all < 2 ^ n) × Among all ((graph_of sheet.now).joined a.0) × (e < 2 ^ n) × (0x08 ≤ c) × (turned ≡ true → c ≤ 0x09) }
    ensures { result ≡ set_of n (λ i. member within i && quantified c m n (turn turned ((graph_of sheet.now).joined a.0) i) (member e)) }
{
    over::quantified(
        c,
        m,
        n,
        all,
        within,
        turned,
        &|i| Sheet::row_word(sheet, a, Node(i as u8)),
        e,
    )
}
