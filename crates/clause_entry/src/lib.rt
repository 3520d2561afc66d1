// Records of kind 4: an input clause is tested in the order of the numbers that it can be refused with, and then entered in the tables. `Program`
// in specs/ of the crate entry has the contract.
#![tactic(auto)]

ghost use Rattle.std.specs.Prelude.{◌≡◌, ◌<◌};
ghost use Rattle.record.specs.Record.{in_form, record_part, kind_of};
ghost use Rattle.entry.specs.Program.{RowsReady, input_left, input_entered};

use beside::days_in_order;
use entry::entry::Counts;
use entry::rows::{no_variable, put_cells, taken_literals};
use fields::literal_rows_below;
use following::nodes::{Nodes, Origins};
use ranges::input_in_range;
use reasons::Reason;
use record::{Form, record_part};
use record_fields::clause_literals;
use tables::put_clause;

// Kind 4. An input clause has maximum index 1 and no bindings. The clause reader's seven numbers go to the table of origins, each row taken as the
// earliest equal one.
pub fn input_record(
    form: Form,
    file: &[u8],
    k: u16,
    counts: Counts,
    clauses: &mut [u16],
    nodes: &Nodes,
    origins: &mut Origins,
) -> Result<Counts, Reason>
    requires k_value { kind_of (record_part (in_form form file.now) k) ≡ 4 }
    requires clauses_bound { counts.clauses < 4096 }
    requires rows_ready { RowsReady nodes.now }
    ensures { input_left result clauses.new origins.new ≡ input_entered form (record_part (in_form form file.now) k) k counts clauses.old nodes.now origins.old }
{
    let part = record_part(form, file, k as usize);
    if !input_in_range(part) {
        return Err(Reason::OutOfRange);
    }
    if !literal_rows_below(part, counts.rows) {
        return Err(Reason::NotThere);
    }
    if !days_in_order(form, part) {
        return Err(Reason::CrossedDays);
    }
    if !no_variable(nodes, part) {
        return Err(Reason::VariableLiteral);
    }
    let n = counts.clauses;
    let read = clause_literals(form, file, k as usize);
    let written = read.numbers;
    let numbers = taken_literals(nodes, &written);
    put_cells(origins, n, 1, &numbers);
    put_clause(clauses, n, k, read.count as u16, 1, counts.bindings, 0);
    Ok(Counts {
        clauses: n + 1,
        ..counts
    })
}
