// Loading a clause: one walk through its parents that puts every binding it finds into the array of values, so that following a
// variable afterwards is a read of the array. No variable is bound twice in a derivation, so a clause's own bindings can be put first.
#![tactic(auto)]

ghost use Rattle.loading.specs.Loaded.{Loadable, Loaded};

use clauses::{bindings_cell, first_cell, index_cell, origin_code};
use following::nodes::{Nodes, Origins, part_of};
use following::values::ValueCells;
use putting::put_bindings;

// The bindings of clause c and those of its parents are put into the array, indices raised by the offset; those of a right parent above the
// left maximum index. Each parent has a smaller number. An input clause has no bindings, so that beside one the other parent is the last.
// The tables are references to slices, one word each, so that a call has nothing in its frame to lend and the last one becomes a jump.
fn load_clause(
    origins: &Origins,
    clauses: &&[u16],
    bindings: &&[u16],
    nodes: &Nodes,
    values: &mut ValueCells,
    c: u16,
    offset: u16,
)
    requires { Loadable origins.now clauses.now.now bindings.now.now nodes.now values.old c offset }
    ensures { Loaded origins.now clauses.now.now bindings.now.now nodes.now values.old values.new c offset }
{
    let code = origin_code(origins, c);
    if code == 1 {
        return;
    }
    let first = first_cell(*clauses, c);
    let n = bindings_cell(*clauses, c);
    put_bindings(*bindings, nodes, values, first, n, offset);
    let left = part_of(origins, c, 0);
    if code == 2 {
        return load_clause(origins, clauses, bindings, nodes, values, left, offset);
    }
    let right = part_of(origins, c, 2);
    if origin_code(origins, right) == 1 {
        return load_clause(origins, clauses, bindings, nodes, values, left, offset);
    }
    load_clause(origins, clauses, bindings, nodes, values, left, offset);
    let above = offset + index_cell(*clauses, left);
    load_clause(origins, clauses, bindings, nodes, values, right, above)
}

// The same with the tables as slices.
pub fn load(
    origins: &Origins,
    clauses: &[u16],
    bindings: &[u16],
    nodes: &Nodes,
    values: &mut ValueCells,
    c: u16,
    offset: u16,
)
    requires { Loadable origins.now clauses.now bindings.now nodes.now values.old c offset }
    ensures { Loaded origins.now clauses.now bindings.now nodes.now values.old values.new c offset }
{
    load_clause(origins, &clauses, &bindings, nodes, values, c, offset)
}
