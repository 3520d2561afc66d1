// A piece of the second readout with its progress in cells, as C has it. `ExportedCanonical` in specs/ of the crate exported_readout says what it promises.
#![tactic(auto)]

ghost use Rattle.tables.specs.Lent.{SameTables};
ghost use Rattle.record.specs.Record.{old_file};
ghost use Rattle.entry.specs.Progress.{tables_of};
ghost use Rattle.exported_readout.specs.ExportedReadout.{ExportedCanonical};

use exported_readout::put_progress;
use readout::canonical_piece;
use tables::lent::LentTables;

// A piece of the second readout, whose variables are numbered in each line by their first printed appearance. Where `progress` has fewer than three cells,
// nothing is touched.
pub fn canonical_to_cells(
    day: u16,
    file: &[u8],
    tables: &mut LentTables,
    clause: u16,
    output: &mut [u8],
    progress: &mut [u64],
)
    ensures answered { ExportedCanonical day (old_file file.now) (tables_of tables.old) clause output.old progress.old (tables_of tables.new) output.new progress.new }
    ensures same_tables { SameTables tables.old tables.new }
{
    if progress.len() < 3 {
        return;
    }
    let p = canonical_piece(day, file, tables, clause, output);
    put_progress(p, progress);
}
