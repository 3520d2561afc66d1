// Records of kind 5 and 7: a resolve, on one right literal or on several. Its literals are looked up and its tests made here; on the atoms that were
// found the crate resolvents goes on. `Stepping` in specs/ of the crate inference has the contracts.
#![tactic(auto)]

ghost use Rattle.record.specs.Record.{in_form, record_part, kind_of};
ghost use Rattle.inference.specs.Stepping.{BeforeStep, ResolveKind, StepRead};

use entry::entry::Counts;
use following::nodes::{Nodes, Origins};
use following::values::ValueCells;
use inference::{Atom, named_literal};
use reasons::Reason;
use record::{Form, record_part};
use record_fields::fields;
use resolvents::resolve_atoms;
use rights::refused_rights;
use step_fields::{right_count, rights_rise};

// A resolve of kind 5 or 7: the tests in the order of their numbers, 14 before 8. The right literals are listed as they are looked up.
pub fn resolve_record(
    form: Form,
    file: &[u8],
    k: u16,
    counts: Counts,
    clauses: &mut [u16],
    bindings: &mut [u16],
    nodes: &Nodes,
    origins: &mut Origins,
    values: &mut ValueCells,
) -> Result<Counts, Reason>
    requires before_step { BeforeStep (in_form form file.now) k counts clauses.old bindings.old nodes.now origins.old values.old }
    requires resolve_kind { ResolveKind (kind_of (record_part (in_form form file.now) k)) }
    ensures { (E : BeforeStep (in_form form file.now) k counts clauses.old bindings.old nodes.now origins.old values.old) → StepRead (in_form form file.now) k counts clauses.old bindings.old nodes.now origins.old values.old E clauses.new bindings.new origins.new values.new result }
{
    let part = record_part(form, file, k as usize);
    let n = right_count(part);
    if n == 0 {
        return Err(Reason::OutOfRange);
    }
    let numbers = fields(part);
    let left = named_literal(origins, clauses, counts.clauses, numbers[0], numbers[1]);
    let Some(left) = left else {
        return Err(Reason::NotThere);
    };
    let mut listed = [0u16; 8];
    refused_rights(
        origins,
        clauses,
        counts.clauses,
        &numbers,
        n as u16,
        left.positive,
        rights_rise(part, n),
        &mut listed,
    )?;
    let atom = Atom {
        clause: numbers[0],
        row: left.row,
        index: left.index,
    };
    resolve_atoms(
        &numbers, k, counts, clauses, bindings, nodes, origins, values, atom, &listed, n as u16,
    )
}
