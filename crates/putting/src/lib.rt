// Bindings of the table put into the array of values, their indices raised by an offset. `Putting` in specs/ has the contracts.
#![tactic(auto)]

ghost use Rattle.std.specs.Prelude.{◌≡◌};
ghost use Rattle.putting.specs.Putting.{Puttable, BindingsPut, BindingThere, put_cells};

use following::nodes::Nodes;
use following::values::ValueCells;

// The binding at `at` is put into the array with its indices raised by the offset.
fn put_binding(bindings: &[u16], nodes: &Nodes, values: &mut ValueCells, at: usize, offset: u16)
    requires { BindingThere bindings.now nodes.now values.old at offset }
    ensures { values.new ≡ put_cells bindings.now nodes.now values.old at offset }
{
    let variable = bindings[at] as usize;
    let number = nodes[8 * variable + 1] as usize;
    let index = (offset + bindings[at + 1]) as usize;
    let place = 128 * index + 2 * number;
    values[place] = bindings[at + 2] + 1;
    values[place + 1] = offset + bindings[at + 3];
}

// n bindings of the table, from `first` on, are put into the array with their indices raised by the offset.
pub fn put_bindings(
    bindings: &[u16],
    nodes: &Nodes,
    values: &mut ValueCells,
    first: u16,
    n: u16,
    offset: u16,
)
    requires { Puttable bindings.now nodes.now values.old first n offset }
    ensures { BindingsPut bindings.now nodes.now values.old values.new first n offset }
{
    for k in 0..n {
        let at = 4 * ((first as usize) + (k as usize));
        put_binding(bindings, nodes, values, at, offset);
    }
}
