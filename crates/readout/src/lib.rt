// The readouts of a proof file. What they are, `Text` and `Readout` have in the crate verdict and `Appearance` in the crate appearance; what a piece of one is,
// `Pieces` in the crate units. In specs/, `Contract` has what this crate promises.
#![tactic(auto)]

mod piece;

ghost use Rattle.tables.specs.Lent.{SameTables};
ghost use Rattle.record.specs.Record.{old_file};
ghost use Rattle.verdict.specs.Readout.{clause_line};
ghost use Rattle.entry.specs.Progress.{tables_of};
ghost use Rattle.readout.specs.Contract.{PieceWritten, CanonicalWritten};

use numbering::Naming;
use piece::piece_by;
use pieces::Piece;
use tables::lent::LentTables;

// Checks a file on a day and writes as many whole lines of its readout as fit into the output, from a clause on; from clause 0 with the first line
// before them. The tables are left as the check leaves them.
pub fn readout_piece(
    day: u16,
    file: &[u8],
    tables: &mut LentTables,
    clause: u16,
    output: &mut [u8],
) -> Piece
    ensures answered { PieceWritten clause_line day (old_file file.now) (tables_of tables.old) clause output.old result (tables_of tables.new) output.new }
    ensures same_tables { SameTables tables.old tables.new }
{
    piece_by(day, file, tables, Naming::ByIndex, clause, output)
}

// The same for the second readout, whose variables are numbered in each line by their first printed appearance.
pub fn canonical_piece(
    day: u16,
    file: &[u8],
    tables: &mut LentTables,
    clause: u16,
    output: &mut [u8],
) -> Piece
    ensures answered { CanonicalWritten day (old_file file.now) (tables_of tables.old) clause output.old result (tables_of tables.new) output.new }
    ensures same_tables { SameTables tables.old tables.new }
{
    piece_by(day, file, tables, Naming::ByAppearance, clause, output)
}
