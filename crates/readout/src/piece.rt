// A piece of a readout, after a check.
ghost use Rattle.tables.specs.Lent.{SameTables};
ghost use Rattle.record.specs.Record.{old_file};
ghost use Rattle.entry.specs.Progress.{tables_of};
ghost use Rattle.numbering.specs.Numbering.{line_of};
ghost use Rattle.readout.specs.Contract.{PieceWritten};

use checker::check_with;
use following::lent::LentWorkspace;
use numbering::Naming;
use pieces::{Piece, write_named_piece};
use record::Form;
use tables::lent::LentTables;

// A piece of a readout with a workspace for the check.
fn piece_with(
    day: u16,
    file: &[u8],
    tables: &mut LentTables,
    workspace: &mut LentWorkspace,
    naming: Naming,
    clause: u16,
    output: &mut [u8],
) -> Piece
    ensures answered { PieceWritten (line_of naming) day (old_file file.now) (tables_of tables.old) clause output.old result (tables_of tables.new) output.new }
    ensures same_tables { SameTables tables.old tables.new }
{
    let a = check_with(Form::Old, day, file, tables, workspace);
    let clauses = &mut *tables.clauses;
    let bindings = &mut *tables.bindings;
    let nodes = &mut *workspace.nodes;
    let origins = &mut *workspace.origins;
    let values = &mut *workspace.values;
    write_named_piece(
        clauses, bindings, nodes, origins, values, naming, a, clause, output,
    )
}

// Checks a file and writes a piece of a readout, with its variables named in either way.
pub(crate) fn piece_by(
    day: u16,
    file: &[u8],
    tables: &mut LentTables,
    naming: Naming,
    clause: u16,
    output: &mut [u8],
) -> Piece
    ensures answered { PieceWritten (line_of naming) day (old_file file.now) (tables_of tables.old) clause output.old result (tables_of tables.new) output.new }
    ensures same_tables { SameTables tables.old tables.new }
{
    let mut nodes = [0u16; 32768];
    let mut origins = [0u16; 32768];
    let mut values = [0u16; 524416];
    let mut workspace = LentWorkspace {
        nodes: &mut nodes,
        origins: &mut origins,
        values: &mut values,
    };
    piece_with(day, file, tables, &mut workspace, naming, clause, output)
}
