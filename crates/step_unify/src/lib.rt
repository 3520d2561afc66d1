// The unification of a step: the atoms that it names, over the bindings of its parents, which are loaded first. `Stepping` in specs/ of the crate
// inference has the contracts.
#![tactic(auto)]

ghost use Rattle.std.specs.Prelude.{◌≡◌};
ghost use Rattle.unify.specs.Unifying.{outcome_of};
ghost use Rattle.verdict.specs.Step.{unify_resolve, unify_factor};
ghost use Rattle.inference.specs.Stepping.{Resolving, UnifiedTables, atom_named, rights_named, Factoring};

use clauses::index_cell;
use entry::entry::Counts;
use following::failure::Failure;
use following::nodes::{Nodes, Origins};
use following::values::ValueCells;
use inference::Atom;
use loading::load;
use unify::Unified;
use unify_atoms::unify_literals;
use unify_each::unify_with_each;

// Unifies the left atom of a resolve with n listed ones of the right parent, over the bindings of both parents. The right parent's indices are
// raised by the left one's maximum.
pub fn unify_resolve(
    k: u16,
    counts: Counts,
    clauses: &[u16],
    bindings: &mut [u16],
    nodes: &Nodes,
    origins: &Origins,
    values: &mut ValueCells,
    left: Atom,
    right: u16,
    listed: &[u16; 8],
    n: u16,
) -> Result<Unified, Failure>
    requires { Resolving k counts clauses.now bindings.old nodes.now origins.now values.old left right listed.now n }
    ensures rights_named_value { (R : Resolving k counts clauses.now bindings.old nodes.now origins.now values.old left right listed.now n) → unify_resolve R.step.state (atom_named R.left) (rights_named R.rights) ≡ outcome_of bindings.new counts.bindings result }
    ensures unified_tables { UnifiedTables bindings.old bindings.new values.new counts.bindings result }
{
    let raised = index_cell(clauses, left.clause);
    let top = raised + index_cell(clauses, right);
    following::values::clear(values, top);
    load(origins, clauses, bindings, nodes, values, left.clause, 0);
    load(origins, clauses, bindings, nodes, values, right, raised);
    unify_with_each(
        nodes,
        values,
        bindings,
        counts.bindings,
        left.row,
        left.index,
        listed,
        n,
        raised,
    )
}

// Unifies the two atoms of a factor over the bindings of its parent.
pub fn unify_factor(
    k: u16,
    counts: Counts,
    clauses: &[u16],
    bindings: &mut [u16],
    nodes: &Nodes,
    origins: &Origins,
    values: &mut ValueCells,
    kept: Atom,
    deleted: Atom,
) -> Result<Unified, Failure>
    requires { Factoring k counts clauses.now bindings.old nodes.now origins.now values.old kept deleted }
    ensures atom_named_value { (R : Factoring k counts clauses.now bindings.old nodes.now origins.now values.old kept deleted) → unify_factor R.step.state (atom_named R.kept) (atom_named R.deleted) ≡ outcome_of bindings.new counts.bindings result }
    ensures unified_tables { UnifiedTables bindings.old bindings.new values.new counts.bindings result }
{
    following::values::clear(values, index_cell(clauses, kept.clause));
    load(origins, clauses, bindings, nodes, values, kept.clause, 0);
    unify_literals(
        nodes,
        values,
        bindings,
        counts.bindings,
        kept.row,
        kept.index,
        deleted.row,
        deleted.index,
    )
}
