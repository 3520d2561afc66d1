// What the tables hold of a clause: its cells in the table of clauses, and the code of its origin. What they mean stands in `Stored` of the crate
// derivation.
#![tactic(auto)]

ghost use Rattle.std.specs.Prelude.{◌≡◌};
ghost use Rattle.derivation.specs.Stored.{literals_cell, index_cell, first_cell, bindings_cell, origin_code};

use following::nodes::{Origins, node};
use tables::cell;

// The number of literals of clause c.
pub fn literals_cell(clauses: &[u16], c: u16) -> u16
    ensures { result ≡ literals_cell clauses.now c }
{
    cell(clauses, 5 * (c as usize) + 1)
}

// The maximum index of clause c.
pub fn index_cell(clauses: &[u16], c: u16) -> u16
    ensures { result ≡ index_cell clauses.now c }
{
    cell(clauses, 5 * (c as usize) + 2)
}

// The first binding of clause c.
pub fn first_cell(clauses: &[u16], c: u16) -> u16
    ensures { result ≡ first_cell clauses.now c }
{
    cell(clauses, 5 * (c as usize) + 3)
}

// The number of bindings of clause c.
pub fn bindings_cell(clauses: &[u16], c: u16) -> u16
    ensures { result ≡ bindings_cell clauses.now c }
{
    cell(clauses, 5 * (c as usize) + 4)
}

// Cell 0 of clause c in the table of origins: 1 for an input clause, 2 for a factor, 2 more than the number of right literals for a resolve.
// Its seven numbers are read by `part_of`, as a row's are.
pub fn origin_code(origins: &Origins, c: u16) -> u16
    ensures { result ≡ origin_code origins.now c }
{
    node(origins, 8 * (c as usize))
}
