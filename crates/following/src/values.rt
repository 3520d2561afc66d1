// The array of values: two cells for each variable number and index, a row plus 1 and an index. Reads outside give 0, and
// writes outside do nothing, so that none of them asks for rows and indices in range.
ghost use Rattle.std.specs.Prelude.{◌≡◌, ◌+◌, ◌*◌, ◌<◌, ◌≤◌, length};
ghost use Rattle.unification.specs.ValueArray.{slot, put};
ghost use Rattle.following.specs.Clearing.{Cleared};

use super::nodes::{Nodes, part_of};
use tables::set_cell;

// The array of values: two cells for each of 64 variable numbers, at each index from 0 to 4,096.
pub type ValueCells = [u16; 524416];

// The two cells at `at` of a table written.
pub fn write_cells(table: &mut [u16], at: usize, a: u16, b: u16)
    requires { at < 16777216 }
    ensures { table.new ≡ put table.old at a b }
{
    set_cell(table, at, a);
    set_cell(table, at + 1, b);
}

// Where the two cells of the variable at an index are.
pub fn slot_of(nodes: &Nodes, r: u16, i: u16) -> usize
    ensures { (result ≡ slot nodes.now r i) × (result < 8519680) }
{
    128 * (i as usize) + 2 * (part_of(nodes, r, 0) as usize)
}

// The cells of all indices up to `top` set to 0: a step uses no others.
pub fn clear(values: &mut ValueCells, top: u16)
    requires { top ≤ 4096 }
    ensures cleared { Cleared values.old values.new (128 * (top + 1)) }
    ensures values_len_2 { length values.new ≡ 524416 }
{
    let end = 128 * ((top as usize) + 1);
    values[..end].fill(0);
}
