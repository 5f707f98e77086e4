// Quantifiers over a relation in rows.
ghost use Rattle.std.specs.Prelude.{◌≡◌, ◌&&◌, ◌^◌, ◌<◌, ◌≤◌, length};
ghost use Rattle.logic.specs.Graph.{Pairs};
ghost use Rattle.logic.specs.Limits.{max_nodes};
ghost use Rattle.bitset.specs.Words.{set_of, member};
ghost use Rattle.sheet.specs.Sheet.{Rows};
ghost use Rattle.rows.specs.Operations.{quantified, turn, Among};

use crate::counting::{Wanted, least};
use crate::over;
use crate::relations::reverse_rows;

// 08, 09, 0A, 0B: the nodes of `within` that meet it, for the rows or, when turned, for the columns. The rows may be overwritten.
// Inner: n is a sheet's node count and there are 64 rows.
pub fn quantified(
    c: u8,
    m: u8,
    n: usize,
    all: u64,
    within: u64,
    turned: bool,
    rows: &mut [u64],
    e: u64,
) -> u64
    requires { (n ≤ max_nodes) × (length rows.old ≡ 64) × (within < 2 ^ n) × (all < 2 ^ n) × (e < 2 ^ n) }
    ensures { ((v : Pairs) → Among all v → Rows n v rows.old → result ≡ set_of n (λ i. member within i && quantified c m n (turn turned v i) (member e))) × (length rows.new ≡ 64) }
{
    if turned && matches!(least(c, m), Wanted::Count(_)) {
        reverse_rows(n, rows);
        return over::quantified(c, m, n, all, within, false, &|i| rows[i], e);
    }
    over::quantified(c, m, n, all, within, turned, &|i| rows[i], e)
}
