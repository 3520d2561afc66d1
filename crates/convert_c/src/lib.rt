// The conversions of a proof file with their answer in cells, as C has it. `ExportedConversion` in specs/ of the crate exported_conversion says what they promise.
#![tactic(auto)]

ghost use Rattle.tables.specs.Lent.{SameTables};
ghost use Rattle.record.specs.Record.{old_file, new_file};
ghost use Rattle.entry.specs.Progress.{tables_of};
ghost use Rattle.exported_conversion.specs.ExportedConversion.{ExportedConversion};

use convert::{to_new, to_old};
use exported_writing::put_writing;
use tables::lent::LentTables;

// An old file in the new form, with the answer in four cells. Where `answer` has fewer, nothing is touched.
pub fn new_to_cells(file: &[u8], tables: &mut LentTables, output: &mut [u8], answer: &mut [u32])
    ensures answered { ExportedConversion (old_file file.now) (tables_of tables.old) output.old answer.old (tables_of tables.new) output.new answer.new }
    ensures same_tables { SameTables tables.old tables.new }
{
    if answer.len() < 4 {
        return;
    }
    let m = to_new(file, tables, output);
    put_writing(m, answer);
}

// A new file in the old form, in the same way.
pub fn old_to_cells(file: &[u8], tables: &mut LentTables, output: &mut [u8], answer: &mut [u32])
    ensures answered { ExportedConversion (new_file file.now) (tables_of tables.old) output.old answer.old (tables_of tables.new) output.new answer.new }
    ensures same_tables { SameTables tables.old tables.new }
{
    if answer.len() < 4 {
        return;
    }
    let m = to_old(file, tables, output);
    put_writing(m, answer);
}
