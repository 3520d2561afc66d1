// A row compared with given cells, and the lowest row that has them, by going through the table. `Rows` in specs/ of the crate distinct has the contracts.
#![tactic(auto)]

ghost use Rattle.std.specs.Prelude.{◌≡◌, ◌∷◌, ◌≤◌, ◌<◌};
ghost use Rattle.record.specs.Answered.{answered};
ghost use Rattle.unification.specs.Repeated.{equal_lists};
ghost use Rattle.distinct.specs.Rows.{node_at, row_with_cells};

use following::nodes::Nodes;

// Whether row r has this code and these numbers. Most rows differ in one of the first cells, so it stops at the first difference.
pub fn same_cells(nodes: &Nodes, r: u16, code: u16, numbers: &[u16; 7]) -> bool
    requires { r < 4096 }
    ensures { result ≡ equal_lists (node_at nodes.now r) (code ∷ numbers.now) }
{
    let at = 8 * (r as usize);
    if nodes[at] != code {
        return false;
    }
    // No slice `==`: over seven equal cells it measures 9 ns in place of 3.
    for i in 0..7 {
        if nodes[at + 1 + i] != numbers[i] {
            return false;
        }
    }
    true
}

// The lowest row below n that has this code and these numbers, by comparing every row.
pub fn scan_rows(nodes: &Nodes, n: u16, code: u16, numbers: &[u16; 7]) -> Option<u16>
    requires { n ≤ 4096 }
    ensures { result ≡ answered (row_with_cells nodes.now n (code ∷ numbers.now)) }
{
    for row in 0..n {
        if same_cells(nodes, row, code, numbers) {
            return Some(row);
        }
    }
    None
}
