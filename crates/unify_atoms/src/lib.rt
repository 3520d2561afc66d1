// Unification of two atoms, with the work and the bindings that a step may take. `Unifying` in specs/ of the crate unify has the contract.
#![tactic(auto)]

ghost use Rattle.std.specs.Prelude.{[], ◌∷◌};
ghost use Rattle.unify.specs.Unifying.{Ready, Answered};

use following::failure::Failure;
use following::nodes::Nodes;
use following::values::ValueCells;
use unify::Unified;
use unify_pairs::unify_pair;

// Unifies l at index i with r at index j, with all the work that a step may take and `held` bindings held before. New bindings
// are appended to the table of bindings and put into the array of values; chains in the array may get shorter.
pub fn unify_literals(
    nodes: &Nodes,
    values: &mut ValueCells,
    bindings: &mut [u16],
    held: u16,
    l: u16,
    i: u16,
    r: u16,
    j: u16,
) -> Result<Unified, Failure>
    requires { Ready nodes.now values.old bindings.old held (((l, i), (r, j)) ∷ []) }
    ensures { Answered nodes.now values.old values.new bindings.old bindings.new held (((l, i), (r, j)) ∷ []) result }
{
    unify_pair(nodes, values, bindings, held, l, i, r, j, 16384)
}
