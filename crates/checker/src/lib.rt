// The check of a proof file. The definitions are in the crate verdict: `Verdict` and `Tables` have what the check answers; in the
// crate demands, `Demands` has what is demanded of it. In specs/, `Contract` has what `check` promises; `Reader` of the crate reading says how this program
// goes about it. Single records are read by the crates record_entry, clause_entry, resolution, factoring and window_entry.
#![tactic(auto)]

ghost use Rattle.tables.specs.Lent.{SameTables};
ghost use Rattle.following.specs.Lent.{SameWorkspace};
ghost use Rattle.std.specs.Prelude.{◌≡◌};
ghost use Rattle.record.specs.Record.{in_form};
ghost use Rattle.verdict.specs.Verdict.{long_enough};
ghost use Rattle.verdict.specs.Tables.{lengths_of};
ghost use Rattle.checker.specs.Contract.{Checked, CheckedWith, workspace_of};
ghost use Rattle.entry.specs.Progress.{tables_of};

use answer::{Answer, untouched};
use file_reading::{read_file, read_tables};
use following::lent::LentWorkspace;
use lengths::{fitting_length, long_enough};
use reasons::Reason;
use record::Form;
use tables::lent::LentTables;
use workspace::{clear_table, whole_table, whole_values};

// Whether each table has room for its named part.
fn has_room(tables: &LentTables) -> bool
    ensures { result ≡ long_enough (lengths_of (tables_of tables.now)) }
{
    long_enough(
        tables.symbols.len(),
        tables.rows.len(),
        tables.clauses.len(),
        tables.bindings.len(),
    )
}

// The check of a file of a form on a day: its length, then the tables' lengths, then record by record; the day decides only which empty clause is accepted.
pub fn check(form: Form, day: u16, file: &[u8], tables: &mut LentTables) -> Answer
    ensures answered { Checked day (in_form form file.now) (tables_of tables.old) result (tables_of tables.new) }
    ensures same_tables { SameTables tables.old tables.new }
{
    if !fitting_length(form, file.len()) {
        return untouched(Reason::BadLength.number());
    }
    if !has_room(tables) {
        return untouched(Reason::ShortTable.number());
    }
    read_file(form, day, file, tables)
}

// The same check for services, with a workspace that the caller lends and keeps between files, whatever it holds: the tables in it are
// cleared here, and a step clears what it needs of the array. The readout goes on with what it then holds.
pub fn check_with(
    form: Form,
    day: u16,
    file: &[u8],
    tables: &mut LentTables,
    workspace: &mut LentWorkspace,
) -> Answer
    ensures answered { CheckedWith day (in_form form file.now) (tables_of tables.old) (workspace_of workspace.old) result (tables_of tables.new) (workspace_of workspace.new) }
    ensures same_tables { SameTables tables.old tables.new }
    ensures same_workspace { SameWorkspace workspace.old workspace.new }
{
    whole_table(workspace.nodes);
    whole_table(workspace.origins);
    whole_values(workspace.values);
    if !fitting_length(form, file.len()) {
        return untouched(Reason::BadLength.number());
    }
    if !has_room(tables) {
        return untouched(Reason::ShortTable.number());
    }
    clear_table(workspace.nodes);
    clear_table(workspace.origins);
    read_tables(form, day, file, tables, workspace)
}
