// What the program proofread checks: the file in what it has read, on the day that stands before it. `Checking` in specs/ has the contract.
#![tactic(auto)]

ghost use Rattle.tables.specs.Lent.{SameTables};
ghost use Rattle.following.specs.Lent.{SameWorkspace};
ghost use Rattle.checker.specs.Contract.{workspace_of};
ghost use Rattle.entry.specs.Progress.{tables_of};
ghost use Rattle.input_check.specs.Checking.{Holds, InputChecked};

use answer::Answer;
use checker::check_with;
use following::lent::LentWorkspace;
use program_input::{day_of, file_part};
use record::Form;
use tables::lent::LentTables;

// Checks the file that the first n bytes of a space hold, on the day that stands before it.
pub fn check_input(
    space: &[u8],
    n: usize,
    tables: &mut LentTables,
    workspace: &mut LentWorkspace,
) -> Answer
    requires { Holds space.now n }
    ensures answered { InputChecked space.now n (tables_of tables.old) (workspace_of workspace.old) result (tables_of tables.new) (workspace_of workspace.new) }
    ensures same_tables { SameTables tables.old tables.new }
    ensures same_workspace { SameWorkspace workspace.old workspace.new }
{
    let day = day_of(&space[..n]);
    check_with(Form::Old, day, &space[file_part(n)], tables, workspace)
}
