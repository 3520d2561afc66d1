// A resolve on atoms that were found: the limits on its result, outlines, unification, and its end. `Stepping` in specs/ of the crate inference
// has the contracts.
#![tactic(auto)]

ghost use Rattle.inference.specs.Stepping.{ResolveNamed, StepRead};

use entry::entry::Counts;
use following::failure::Failure;
use following::nodes::{Nodes, Origins};
use following::values::ValueCells;
use inference::Atom;
use outlines::some_outlines_clash;
use reasons::Reason;
use resolvent_size::resolvent_size;
use step_end::finish_step;
use step_unify::unify_resolve;

// A resolve on a named atom and n listed ones of the other sign: the limits on its result, outlines, unification, and its end.
pub fn resolve_atoms(
    numbers: &[u16; 7],
    k: u16,
    counts: Counts,
    clauses: &mut [u16],
    bindings: &mut [u16],
    nodes: &Nodes,
    origins: &mut Origins,
    values: &mut ValueCells,
    left: Atom,
    listed: &[u16; 8],
    n: u16,
) -> Result<Counts, Reason>
    requires { ResolveNamed numbers.now k counts clauses.old bindings.old nodes.now origins.old values.old left listed.now n }
    ensures { (R : ResolveNamed numbers.now k counts clauses.old bindings.old nodes.now origins.old values.old left listed.now n) → StepRead R.file k counts clauses.old bindings.old nodes.now origins.old values.old R.step clauses.new bindings.new origins.new values.new result }
{
    let right = numbers[2];
    let size = resolvent_size(clauses, left.clause, right, n);
    let Some(size) = size else {
        return Err(Reason::TooLarge);
    };
    if some_outlines_clash(nodes, left.row, listed, n) {
        return Err(Reason::Unification(Failure::SymbolsDiffer));
    }
    let u = unify_resolve(
        k, counts, clauses, bindings, nodes, origins, values, left, right, listed, n,
    );
    finish_step(
        u,
        k,
        counts,
        size.literals,
        size.maximum,
        2 + n,
        numbers,
        clauses,
        bindings,
        origins,
    )
}
