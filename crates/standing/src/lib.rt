// The answer on a file that was read, on a day: which clauses are in force, and the first without literals among them. `Given` in specs/ of the crate answer
// has the contracts.
#![tactic(auto)]

ghost use Rattle.std.specs.Prelude.{◌≡◌};
ghost use Rattle.record.specs.Record.{in_form};
ghost use Rattle.force.specs.Flags.{flags_in_force};
ghost use Rattle.answer.specs.Given.{verdict_coded, answer_given, ended_numbers, standing_numbers, accepts, all_set};

use answer::{Answer, Refused, Verdict, with_counts};
use clauses::literals_cell;
use entry::entry::Counts;
use flagging::in_force;
use following::nodes::Origins;
use record::Form;
use tables::cell;

// Whether clause c has no literals and is in force.
fn is_accepted(clauses: &[u16], flags: &[u16], c: u16) -> bool
    ensures { result ≡ accepts clauses.now flags.now c }
{
    cell(flags, c as usize) == 1 && literals_cell(clauses, c) == 0
}

// The first clause without literals among those in force.
fn first_accepted(clauses: &[u16], flags: &[u16], count: u16) -> Verdict
    ensures { verdict_coded result ≡ standing_numbers clauses.now flags.now count }
{
    for c in 0..count {
        if is_accepted(clauses, flags, c) {
            return Verdict::Accepted(c);
        }
    }
    Verdict::Open
}

// The verdict on a file whose records all stand, on a day: flags say which clauses are in force.
fn standing(
    form: Form,
    day: u16,
    file: &[u8],
    clauses: &[u16],
    origins: &Origins,
    count: u16,
) -> Verdict
    ensures { verdict_coded result ≡ standing_numbers clauses.now (flags_in_force day (in_form form file.now) origins.now count all_set) count }
{
    let mut flags = [1u16; 4096];
    in_force(form, day, file, origins, count, &mut flags);
    first_accepted(clauses, &flags, count)
}

// The answer on a file that was read. The day matters only where all records stand.
pub fn ended_answer(
    form: Form,
    day: u16,
    file: &[u8],
    e: Result<Counts, Refused>,
    clauses: &[u16],
    origins: &Origins,
) -> Answer
    ensures { answer_given result ≡ ended_numbers day (in_form form file.now) e clauses.now origins.now }
{
    match e {
        Ok(n) => with_counts(standing(form, day, file, clauses, origins, n.clauses), n),
        Err(r) => with_counts(Verdict::Refused(r.reason.number(), r.number), r.counts),
    }
}
