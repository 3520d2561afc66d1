// A variable bound: the occurrence test, the binding written, and its value. `Pairs` in specs/ of the crate unify has the contract.
#![tactic(auto)]

ghost use Rattle.std.specs.Prelude.{◌≡◌, length};
ghost use Rattle.unify.specs.Pairs.{BindReady, Bound, Filed, NoMoreWorkLeft};

use following::failure::Failure;
use following::nodes::Nodes;
use following::values::{ValueCells, slot_of, write_cells};
use occurrence::occurs_in;
use unify::Unified;
use unify::bindings::push_binding;

// The variable v at index i is bound to t at index j, if it does not occur there and there is room for a binding.
pub fn bind(
    nodes: &Nodes,
    values: &mut ValueCells,
    bindings: &mut [u16],
    held: u16,
    v: u16,
    i: u16,
    t: u16,
    j: u16,
    work: u16,
) -> Result<Unified, Failure>
    requires { BindReady nodes.now values.old bindings.old held (v, i) (t, j) }
    ensures bound { Bound nodes.now values.old values.new bindings.old bindings.new held (v, i) (t, j) work result }
    ensures filed { Filed bindings.old bindings.new held result × NoMoreWorkLeft work result × (length values.new ≡ 524416) }
{
    let left = occurs_in(nodes, values, v, i, t, j, work)?;
    if held >= 8192 {
        return Err(Failure::NoRoom);
    }
    push_binding(bindings, held, v, i, t, j);
    let at = slot_of(nodes, v, i);
    // Rows are below 4,096, so this sum never wraps.
    write_cells(values, at, t.wrapping_add(1), j);
    Ok(Unified {
        work: left,
        held: held + 1,
    })
}
