// The last child of each clause, written into its cell: clauses are gone through in order, and a later child replaces an earlier one.
ghost use Rattle.std.specs.Prelude.{◌≡◌, ◌≤◌, ◌<◌};
ghost use Rattle.record.specs.Record.{old_file};
ghost use Rattle.board_opening.specs.Filling.{with_child, child_put, children_put};

use record::{Form, field, kind, record_part};
use tables::{cell, set_cell};

// Clause n is a child of clause p.
#[tactic(auto, unfolding(crate::specs::Filling::with_child))]
fn put_child(board: &mut [u16], p: u16, n: u16)
    requires { n < 4096 }
    ensures { board.new ≡ with_child board.old p n }
{
    let x = cell(board, p as usize) % 8;
    set_cell(board, p as usize, 8 * n + x);
}

// Clause n is a child of its parents, by its record: a factor has one and a resolve two.
fn put_parents(file: &[u8], clauses: &[u16], n: u16, board: &mut [u16])
    requires { n < 4096 }
    ensures { board.new ≡ child_put (old_file file.now) clauses.now n board.old }
{
    let part = record_part(Form::Old, file, cell(clauses, 5 * (n as usize)) as usize);
    let k = kind(part);
    if k == 4 {
        return;
    }
    put_child(board, field(part, 0), n);
    if k == 6 {
        return;
    }
    put_child(board, field(part, 2), n);
}

// All of the first clauses.
pub fn put_children(file: &[u8], clauses: &[u16], count: u16, board: &mut [u16])
    requires { count ≤ 4096 }
    ensures { board.new ≡ children_put (old_file file.now) clauses.now count board.old }
{
    for n in 0..count {
        put_parents(file, clauses, n, board);
    }
}
