// The second part of a merge, where the first file stands: the second file's check, and where that stands too, the merged file. In specs/, `Going` says how
// the parts of a merge go about it. What comes after both checks is in the crate joining.
#![tactic(auto)]

ghost use Rattle.tables.specs.Lent.{SameTables};
ghost use Rattle.entry.specs.Progress.{tables_of};
ghost use Rattle.merge_second.specs.Going.{FirstStands, SecondAnswered};

use answer::Answer;
use checker::check_with;
use following::lent::LentWorkspace;
use joining::join;
use record::Form;
use tables::lent::LentTables;
use writing_answer::{NotWritten, standing};

// What comes after the first file's check: the second's, and where that stands too, the merged file.
pub fn merge_second(
    first: &[u8],
    second: &[u8],
    mine: Answer,
    tables: &mut LentTables,
    workspace: &mut LentWorkspace,
    output: &mut [u8],
) -> Result<u32, NotWritten>
    requires { FirstStands first.now mine output.old }
    ensures answered { SecondAnswered first.now second.now (tables_of tables.old) output.old result (tables_of tables.new) output.new }
    ensures same_tables { SameTables tables.old tables.new }
{
    let theirs = check_with(Form::Old, 0, second, tables, workspace);
    standing(theirs.verdict, 2)?;
    join(
        first,
        second,
        mine.symbols,
        mine.rows,
        mine.clauses,
        theirs.symbols,
        output,
    )
}
