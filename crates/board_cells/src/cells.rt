// The cell of a clause: 4, 2 more if its input clauses are in force, 1 more if it stands, and eight times its last child.
ghost use Rattle.std.specs.Prelude.{◌≡◌};
ghost use Rattle.boards.specs.Cells.{cell_with, child_cell, force_cell, stands_cell, from_parents, right_parent, new_cell};
ghost use Rattle.record.specs.Record.{old_file, kind_of};

use record::{Form, field, kind, record_part};
use tables::cell;

// A cell with the last child of x, for a clause that is in force or not and stands or not.
pub fn cell_like(x: u16, force: bool, stands: bool) -> u16
    ensures { result ≡ cell_with (child_cell x) force stands }
{
    8 * (x / 8) + 4 + 2 * (force as u16) + (stands as u16)
}

// The last child of a clause, by its cell.
pub fn child_cell(x: u16) -> u16
    ensures { result ≡ child_cell x }
{
    x / 8
}

// Whether all input clauses of a clause are in force, by its cell.
pub fn force_cell(x: u16) -> bool
    ensures { result ≡ force_cell x }
{
    x / 2 % 2 == 1
}

// Whether a clause stands, by its cell.
pub fn stands_cell(x: u16) -> bool
    ensures { result ≡ stands_cell x }
{
    x % 2 == 1
}

// The cell of a clause that has x, and whose parents have these: in force and standing if both are.
fn from_parents(x: u16, left: u16, right: u16) -> u16
    ensures { result ≡ from_parents x left right }
{
    let force = force_cell(left) & force_cell(right);
    let stands = stands_cell(left) & stands_cell(right);
    cell_like(x, force, stands)
}

// The right parent of a clause, by its record: a factor's is its left one.
fn right_parent(part: &[u8], k: u8) -> u16
    requires { k ≡ kind_of part.now }
    ensures { result ≡ right_parent part.now }
{
    let left = field(part, 0);
    let right = field(part, 2);
    if k == 6 { left } else { right }
}

// The cell of clause n, by its record: an input clause's is its own. Parents are looked at whatever the kind, so that a pass over clauses of many kinds goes
// straight on.
pub fn new_cell(file: &[u8], clauses: &[u16], board: &[u16], n: u16) -> u16
    ensures { result ≡ new_cell (old_file file.now) clauses.now board.now n }
{
    let part = record_part(Form::Old, file, cell(clauses, 5 * (n as usize)) as usize);
    let own = cell(board, n as usize);
    let k = kind(part);
    let left = cell(board, field(part, 0) as usize);
    let right = cell(board, right_parent(part, k) as usize);
    let new = from_parents(own, left, right);
    if k == 4 { own } else { new }
}
