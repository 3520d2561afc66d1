// One pass over the clauses, from parents to children.
ghost use Rattle.std.specs.Prelude.{◌≡◌, ◌-◌, ◌≤◌};
ghost use Rattle.record.specs.Record.{old_file};
ghost use Rattle.boards.specs.Cells.{larger, last_after, passed};

use super::cells::{child_cell, new_cell};
use tables::{cell, set_cell};

fn larger_of(a: u16, b: u16) -> u16
    ensures { result ≡ larger a b }
{
    if a < b { b } else { a }
}

// The last child of the clauses that have changed, after one whose cell was `before` and now is `after`; without a branch, because which clauses change cannot be foreseen.
fn last_after(last: u16, before: u16, after: u16) -> u16
    ensures { result ≡ last_after last before after }
{
    let changed = before != after;
    larger_of(last, (changed as u16) * child_cell(before))
}

// Each clause from `from` on gets its cell from those of its parents, up to the last child of those that have changed: `child` at first.
pub fn pass(file: &[u8], clauses: &[u16], board: &mut [u16], from: u16, child: u16)
    requires { from ≤ 4096 }
    ensures { board.new ≡ passed (old_file file.now) clauses.now (4096 - from) from child board.old }
{
    let mut last = child;
    for n in from..4096 {
        if last < n {
            return;
        }
        let before = cell(board, n as usize);
        let after = new_cell(file, clauses, board, n);
        set_cell(board, n as usize, after);
        last = last_after(last, before, after);
    }
}
