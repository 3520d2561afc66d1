// A factor on two named atoms of one clause: their outlines are compared, the clause's bindings are loaded once, the atoms are unified, and the factor is
// entered. `Stepping` in specs/ of the crate inference has the contract.
#![tactic(auto)]

ghost use Rattle.inference.specs.Stepping.{FactorNamed, StepRead};

use clauses::{index_cell, literals_cell};
use entry::entry::Counts;
use following::failure::Failure;
use following::nodes::{Nodes, Origins};
use following::values::ValueCells;
use inference::Atom;
use outlines::outlines_clash;
use reasons::Reason;
use step_end::finish_step;
use step_unify::unify_factor;

// A factor on two named atoms of one clause: outlines, unification, and its end. Its result is no larger than the clause, so no limit is passed.
pub fn factor_atoms(
    numbers: &[u16; 7],
    k: u16,
    counts: Counts,
    clauses: &mut [u16],
    bindings: &mut [u16],
    nodes: &Nodes,
    origins: &mut Origins,
    values: &mut ValueCells,
    kept: Atom,
    deleted: Atom,
) -> Result<Counts, Reason>
    requires { FactorNamed numbers.now k counts clauses.old bindings.old nodes.now origins.old values.old kept deleted }
    ensures { (R : FactorNamed numbers.now k counts clauses.old bindings.old nodes.now origins.old values.old kept deleted) → StepRead R.file k counts clauses.old bindings.old nodes.now origins.old values.old R.step clauses.new bindings.new origins.new values.new result }
{
    if outlines_clash(nodes, kept.row, deleted.row) {
        return Err(Reason::Unification(Failure::SymbolsDiffer));
    }
    let literals = literals_cell(clauses, kept.clause) - 1;
    let index = index_cell(clauses, kept.clause);
    let u = unify_factor(
        k, counts, clauses, bindings, nodes, origins, values, kept, deleted,
    );
    finish_step(
        u, k, counts, literals, index, 2, numbers, clauses, bindings, origins,
    )
}
