// A piece of the readout with its progress in cells, as C has it. `ExportedReadout` in specs/ of the crate exported_readout says what it promises.
#![tactic(auto)]

ghost use Rattle.tables.specs.Lent.{SameTables};
ghost use Rattle.record.specs.Record.{old_file};
ghost use Rattle.entry.specs.Progress.{tables_of};
ghost use Rattle.verdict.specs.Readout.{clause_line};
ghost use Rattle.exported_readout.specs.ExportedReadout.{ExportedReadout};

use exported_readout::put_progress;
use readout::readout_piece;
use tables::lent::LentTables;

// A piece of the readout of a file on a day, from a clause on, with the progress in three cells. Where `progress` has fewer, nothing is touched.
pub fn readout_to_cells(
    day: u16,
    file: &[u8],
    tables: &mut LentTables,
    clause: u16,
    output: &mut [u8],
    progress: &mut [u64],
)
    ensures answered { ExportedReadout clause_line day (old_file file.now) (tables_of tables.old) clause output.old progress.old (tables_of tables.new) output.new progress.new }
    ensures same_tables { SameTables tables.old tables.new }
{
    if progress.len() < 3 {
        return;
    }
    let p = readout_piece(day, file, tables, clause, output);
    put_progress(p, progress);
}
