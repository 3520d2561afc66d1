// The trim of a proof file with its answer in cells, as C has it. `ExportedTrim` in specs/ of the crate exported_trim says what it promises.
#![tactic(auto)]

ghost use Rattle.tables.specs.Lent.{SameTables};
ghost use Rattle.entry.specs.Progress.{tables_of};
ghost use Rattle.exported_trim.specs.ExportedTrim.{ExportedTrim};

use exported_writing::put_writing;
use tables::lent::LentTables;
use trim::trim;

// A file trimmed on a day, with the answer in four cells. Where `answer` has fewer, nothing is touched.
pub fn trim_to_cells(
    day: u16,
    file: &[u8],
    tables: &mut LentTables,
    output: &mut [u8],
    answer: &mut [u32],
)
    ensures answered { ExportedTrim day file.now (tables_of tables.old) output.old answer.old (tables_of tables.new) output.new answer.new }
    ensures same_tables { SameTables tables.old tables.new }
{
    if answer.len() < 4 {
        return;
    }
    let m = trim(day, file, tables, output);
    put_writing(m, answer);
}
