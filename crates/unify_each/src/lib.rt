// Unification of an atom with several others in turn, with the work and the bindings that a step may take for all of them. `Unifying` in specs/ of the
// crate unify has the contract.
#![tactic(auto)]

ghost use Rattle.unify.specs.Unifying.{pairs_from, ReadyForEach, Answered};

use following::failure::Failure;
use following::nodes::Nodes;
use following::values::ValueCells;
use unify::Unified;
use unify_pairs::unify_pair;

// Unifies l at index i with each of n listed expressions in turn, their indices raised by `raised`: one allowance of work and one count
// of bindings for all of them.
pub fn unify_with_each(
    nodes: &Nodes,
    values: &mut ValueCells,
    bindings: &mut [u16],
    held: u16,
    l: u16,
    i: u16,
    rights: &[u16; 8],
    n: u16,
    raised: u16,
) -> Result<Unified, Failure>
    requires { ReadyForEach nodes.now values.old bindings.old held (l, i) rights.now n raised }
    ensures { Answered nodes.now values.old values.new bindings.old bindings.new held (pairs_from (l, i) raised rights.now 0 n) result }
{
    let mut left = Unified { work: 16384, held };
    for j in 0..n {
        let r = rights[2 * (j as usize)];
        let k = raised + rights[2 * (j as usize) + 1];
        left = unify_pair(nodes, values, bindings, left.held, l, i, r, k, left.work)?;
    }
    Ok(left)
}
