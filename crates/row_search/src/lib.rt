// The row that has given cells, found by its bucket. `Rows` and `Index` in specs/ of the crate distinct have the contracts.
#![tactic(auto)]

ghost use Rattle.std.specs.Prelude.{◌≡◌, ◌∷◌};
ghost use Rattle.record.specs.Answered.{answered};
ghost use Rattle.distinct.specs.Rows.{row_with_cells};
ghost use Rattle.distinct.specs.Index.{Findable};

use distinct::{Heads, Links, bucket};
use following::nodes::Nodes;
use row_scan::{same_cells, scan_rows};

// The row below n that has this code and these numbers. Listed rows differ from each other, so the first that is found is the lowest.
// A chain is followed for 16 rows: where it goes on, rows were chosen to collide, and going through the table is faster.
pub fn find_row(
    nodes: &Nodes,
    heads: &Heads,
    links: &Links,
    n: u16,
    code: u16,
    numbers: &[u16; 7],
) -> Option<u16>
    requires { Findable nodes.now n heads.now links.now code numbers.now }
    ensures { result ≡ answered (row_with_cells nodes.now n (code ∷ numbers.now)) }
{
    let b = bucket(
        code, numbers[0], numbers[1], numbers[2], numbers[3], numbers[4], numbers[5], numbers[6],
    );
    let mut c = heads[b];
    for _ in 0..16 {
        if c == 0 {
            return None;
        }
        let r = c - 1;
        if same_cells(nodes, r, code, numbers) {
            return Some(r);
        }
        c = links[usize::from(r)];
    }
    scan_rows(nodes, n, code, numbers)
}
