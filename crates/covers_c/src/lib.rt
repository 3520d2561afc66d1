// Which clause covers which, with the answer in cells, as C has it. `ExportedCovers` in specs/ of the crate exported_covers says what it promises.
#![tactic(auto)]

ghost use Rattle.tables.specs.Lent.{SameTables};
ghost use Rattle.record.specs.Record.{old_file};
ghost use Rattle.entry.specs.Progress.{tables_of};
ghost use Rattle.exported_covers.specs.ExportedCovers.{ExportedCovers};

use cover::covers;
use exported_covers::put_covering;
use tables::lent::LentTables;

// Whether input clause c of a file covers input clause d, with the answer in ten cells. Where `answer` has fewer, nothing is touched.
pub fn covers_to_cells(file: &[u8], c: u16, d: u16, tables: &mut LentTables, answer: &mut [u16])
    ensures answered { ExportedCovers (old_file file.now) (tables_of tables.old) c d answer.old (tables_of tables.new) answer.new }
    ensures same_tables { SameTables tables.old tables.new }
{
    if answer.len() < 10 {
        return;
    }
    let r = covers(file, tables, c, d);
    put_covering(r, answer);
}
