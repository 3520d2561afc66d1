// The check for services with its answer in cells, as C has it. `ExportedWith` in specs/ of the crate exported says what it promises.
#![tactic(auto)]

ghost use Rattle.tables.specs.Lent.{SameTables};
ghost use Rattle.following.specs.Lent.{SameWorkspace};
ghost use Rattle.record.specs.Record.{old_file};
ghost use Rattle.entry.specs.Progress.{tables_of};
ghost use Rattle.checker.specs.Contract.{workspace_of};
ghost use Rattle.exported.specs.ExportedWith.{ExportedWith};

use checker::check_with;
use exported::cells::put;
use following::lent::LentWorkspace;
use record::Form;
use tables::lent::LentTables;

// The check of a file on a day, in a workspace that the caller lends and keeps between files, whatever it holds. Where `answer` has fewer than seven
// cells, nothing is touched.
pub fn check_with_to_cells(
    day: u16,
    file: &[u8],
    tables: &mut LentTables,
    workspace: &mut LentWorkspace,
    answer: &mut [u16],
)
    ensures answered { ExportedWith day (old_file file.now) (tables_of tables.old) (workspace_of workspace.old) answer.old (tables_of tables.new) (workspace_of workspace.new) answer.new }
    ensures same_tables { SameTables tables.old tables.new }
    ensures same_workspace { SameWorkspace workspace.old workspace.new }
{
    if answer.len() < 7 {
        return;
    }
    let a = check_with(Form::Old, day, file, tables, workspace);
    put(a, answer);
}
