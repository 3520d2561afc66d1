// The numbers of a line's variables, by first appearance. Each variable at an index has a cell, which holds its number if it has one: `order` lists the
// cells of those that have, by their numbers, and says whether a cell's content counts. So nothing is ever cleared: a line begins with no variables in the list,
// and the numbers that a hidden literal took are undone by going back to the count before it.
#![tactic(auto)]

ghost use Rattle.std.specs.Prelude.{◌≡◌, Bool, ◌+◌, ◌<◌, length, get_or};
ghost use Rattle.numbering.specs.Numbering.{number_cell, has_number, count_after, NumberReady, TakesNumber};

use following::nodes::{Nodes, part_of};

// How variables are named: by number and index, or numbered by appearance.
#[derive(Clone, Copy)]
pub enum Naming {
    ByIndex,
    ByAppearance,
}

// The cell of a variable at an index.
fn number_cell(nodes: &Nodes, r: u16, k: u16) -> u32
    ensures { result ≡ number_cell nodes.now (r, k) }
{
    64 * u32::from(k) + u32::from(part_of(nodes, r, 0))
}

// Whether number n, of those below the count, is that of the cell.
fn has_number(order: &[u32], count: u16, n: u16, cell: u32) -> bool
    requires room { length order.now ≡ 8192 }
    requires bound { count < 8192 }
    ensures { result ≡ has_number order.now count n cell }
{
    n < count && order[n as usize] == cell
}

// The number of row r, a variable, at index k: the one that it has, or else the next.
// Slices, since by number and index the callers of `write_piece` and `write_unit` lend shorter ones, of which an array's type would ask more.
pub fn number(
    nodes: &Nodes,
    cells: &mut [u16],
    order: &mut [u32],
    count: u16,
    r: u16,
    k: u16,
) -> u16
    requires { NumberReady nodes.now cells.old order.old count (r, k) }
    ensures { TakesNumber nodes.now cells.old cells.new order.old order.new count (r, k) result }
{
    let cell = number_cell(nodes, r, k);
    let n = cells[cell as usize];
    if has_number(order, count, n, cell) {
        return n;
    }
    cells[cell as usize] = count;
    order[count as usize] = cell;
    count
}

// How many have a number after one was named by n.
pub fn count_after(count: u16, n: u16) -> u16
    requires { count < 8192 }
    ensures { result ≡ count_after count n }
{
    if n == count { count + 1 } else { count }
}
