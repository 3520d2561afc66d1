// Two proof files merged into one: an operator's rulebook and a trip's facts. What that is, and what is shown of it, the crate merging has. In specs/,
// `Contract` has what this crate promises. What comes after the first file's check is in the crate merge_second.
#![tactic(auto)]

ghost use Rattle.tables.specs.Lent.{SameTables};
ghost use Rattle.std.specs.Prelude.{◌≤◌, length};
ghost use Rattle.entry.specs.Progress.{tables_of};
ghost use Rattle.merge.specs.Contract.{MergeAnswered};

use checker::check_with;
use following::lent::LentWorkspace;
use merge_second::merge_second;
use record::Form;
use tables::lent::LentTables;
use writing_answer::{NotWritten, WritingReason, standing};

// The merge with a workspace for both checks.
fn merge_with(
    first: &[u8],
    second: &[u8],
    tables: &mut LentTables,
    workspace: &mut LentWorkspace,
    output: &mut [u8],
) -> Result<u32, NotWritten>
    requires { 65536 ≤ length output.old }
    ensures answered { MergeAnswered first.now second.now (tables_of tables.old) output.old result (tables_of tables.new) output.new }
    ensures same_tables { SameTables tables.old tables.new }
{
    let mine = check_with(Form::Old, 0, first, tables, workspace);
    standing(mine.verdict, 1)?;
    merge_second(first, second, mine, tables, workspace, output)
}

// Merges two files: all records of the first, then those of the second with numbers shifted. The output is written only if the merge goes through, and not
// past the merged file's end. Each file is checked first, and the tables are left as the last check leaves them; whether a file stands does not depend on a
// day, so any day does.
pub fn merge(
    first: &[u8],
    second: &[u8],
    tables: &mut LentTables,
    output: &mut [u8],
) -> Result<u32, NotWritten>
    ensures answered { MergeAnswered first.now second.now (tables_of tables.old) output.old result (tables_of tables.new) output.new }
    ensures same_tables { SameTables tables.old tables.new }
{
    if output.len() < 65536 {
        return Err(NotWritten {
            reason: WritingReason::ShortOutput,
            file: 0,
            at: 0,
        });
    }
    let mut nodes = [0u16; 32768];
    let mut origins = [0u16; 32768];
    let mut values = [0u16; 524416];
    let mut workspace = LentWorkspace {
        nodes: &mut nodes,
        origins: &mut origins,
        values: &mut values,
    };
    merge_with(first, second, tables, &mut workspace, output)
}
