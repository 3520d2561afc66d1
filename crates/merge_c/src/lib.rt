// The merge of two proof files with its answer in cells, as C has it. `ExportedMerge` in specs/ of the crate exported_merge says what it promises.
#![tactic(auto)]

ghost use Rattle.tables.specs.Lent.{SameTables};
ghost use Rattle.entry.specs.Progress.{tables_of};
ghost use Rattle.exported_merge.specs.ExportedMerge.{ExportedMerge};

use exported_writing::put_writing;
use merge::merge;
use tables::lent::LentTables;

// The merge of two files, with the answer in four cells. Where `answer` has fewer, nothing is touched.
pub fn merge_to_cells(
    first: &[u8],
    second: &[u8],
    tables: &mut LentTables,
    output: &mut [u8],
    answer: &mut [u32],
)
    ensures answered { ExportedMerge first.now second.now (tables_of tables.old) output.old answer.old (tables_of tables.new) output.new answer.new }
    ensures same_tables { SameTables tables.old tables.new }
{
    if answer.len() < 4 {
        return;
    }
    let m = merge(first, second, tables, output);
    put_writing(m, answer);
}
