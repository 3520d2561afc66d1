// Records of kind 6: the tests of a factor, in the order of the numbers that it can be refused with. `Stepping` in specs/ of the crate inference has the
// contract.
#![tactic(auto)]

ghost use Rattle.std.specs.Prelude.{◌≡◌};
ghost use Rattle.record.specs.Record.{in_form, record_part, kind_of};
ghost use Rattle.inference.specs.Stepping.{BeforeStep, StepRead};

use entry::entry::Counts;
use factors::factor_atoms;
use following::nodes::{Nodes, Origins};
use following::values::ValueCells;
use inference::{Atom, named_pair};
use reasons::Reason;
use record::{Form, record_part};
use record_fields::fields;
use step_fields::step_in_range;

// A factor: the tests in the order of their numbers. A literal cannot be factored with itself.
pub fn factor_record(
    form: Form,
    file: &[u8],
    k: u16,
    counts: Counts,
    clauses: &mut [u16],
    bindings: &mut [u16],
    nodes: &Nodes,
    origins: &mut Origins,
    values: &mut ValueCells,
) -> Result<Counts, Reason>
    requires before_step { BeforeStep (in_form form file.now) k counts clauses.old bindings.old nodes.now origins.old values.old }
    requires k_value { kind_of (record_part (in_form form file.now) k) ≡ 6 }
    ensures { (E : BeforeStep (in_form form file.now) k counts clauses.old bindings.old nodes.now origins.old values.old) → StepRead (in_form form file.now) k counts clauses.old bindings.old nodes.now origins.old values.old E clauses.new bindings.new origins.new values.new result }
{
    let part = record_part(form, file, k as usize);
    if !step_in_range(part, 3) {
        return Err(Reason::OutOfRange);
    }
    let numbers = fields(part);
    let pair = named_pair(
        origins,
        clauses,
        counts.clauses,
        numbers[0],
        numbers[1],
        numbers[0],
        numbers[2],
    );
    let Some((x, y)) = pair else {
        return Err(Reason::NotThere);
    };
    if x.positive != y.positive {
        return Err(Reason::WrongSigns);
    }
    if numbers[1] == numbers[2] {
        return Err(Reason::WrongSigns);
    }
    let clause = numbers[0];
    let first = Atom {
        clause,
        row: x.row,
        index: x.index,
    };
    let second = Atom {
        clause,
        row: y.row,
        index: y.index,
    };
    factor_atoms(
        &numbers, k, counts, clauses, bindings, nodes, origins, values, first, second,
    )
}
