// The board of a checked file with its answers in cells, as C has them. In specs/, `ExportedBoard` has what is promised.
#![tactic(auto)]

ghost use Rattle.tables.specs.Lent.{SameTables};
ghost use Rattle.std.specs.Prelude.{true, false};
ghost use Rattle.record.specs.Record.{old_file};
ghost use Rattle.entry.specs.Progress.{tables_of};
ghost use Rattle.board_c.specs.ExportedBoard.{ExportedOpening, ExportedCall};

use board::{open_board, return_clause, withdraw_clause};
use board_answers::put_board;
use tables::lent::LentTables;

// The board of a file opened on a day, with the answer in three cells. Where `answer` has fewer, nothing is touched.
pub fn open_to_cells(
    day: u16,
    file: &[u8],
    tables: &mut LentTables,
    board: &mut [u16],
    answer: &mut [u16],
)
    ensures answered { ExportedOpening day (old_file file.now) (tables_of tables.old) board.old answer.old (tables_of tables.new) board.new answer.new }
    ensures same_tables { SameTables tables.old tables.new }
{
    if answer.len() < 3 {
        return;
    }
    let a = open_board(day, file, tables, board);
    put_board(a, answer);
}

// An input clause withdrawn, with the answer in three cells. Where `answer` has fewer, nothing is touched.
pub fn withdraw_to_cells(
    file: &[u8],
    clauses: &[u16],
    board: &mut [u16],
    clause: u16,
    answer: &mut [u16],
)
    ensures { ExportedCall (old_file file.now) clauses.now board.old clause false answer.old board.new answer.new }
{
    if answer.len() < 3 {
        return;
    }
    let a = withdraw_clause(file, clauses, board, clause);
    put_board(a, answer);
}

// The same for one that is returned.
pub fn return_to_cells(
    file: &[u8],
    clauses: &[u16],
    board: &mut [u16],
    clause: u16,
    answer: &mut [u16],
)
    ensures { ExportedCall (old_file file.now) clauses.now board.old clause true answer.old board.new answer.new }
{
    if answer.len() < 3 {
        return;
    }
    let a = return_clause(file, clauses, board, clause);
    put_board(a, answer);
}
