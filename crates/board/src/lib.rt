// The board of a checked file, for the broker service: which input clauses are present, and the lowest standing empty clause whose input clauses are in force.
// The definitions, and what is shown of every sequence of calls, are in the crate boards; `Contract` in specs/ has what is promised. A board is 4,097 cells: one for
// each clause and one for the day.
#![tactic(auto)]

ghost use Rattle.tables.specs.Lent.{SameTables};
ghost use Rattle.std.specs.Prelude.{true, false, ◌≤◌, length};
ghost use Rattle.record.specs.Record.{old_file};
ghost use Rattle.entry.specs.Progress.{tables_of};
ghost use Rattle.board_calls.specs.Called.{BoardCalled};
ghost use Rattle.board.specs.Contract.{BoardOpened};

use answer::stands;
use board_calls::call;
use board_cells::lowest::BoardAnswer;
use board_opening::open_cells;
use board_verdict::opening_answer;
use checker::check_with;
use following::lent::LentWorkspace;
use record::Form;
use tables::lent::LentTables;

// The opening with a workspace for the check.
fn open_with(
    day: u16,
    file: &[u8],
    tables: &mut LentTables,
    workspace: &mut LentWorkspace,
    board: &mut [u16],
) -> BoardAnswer
    requires { 4097 ≤ length board.old }
    ensures answered { BoardOpened day (old_file file.now) (tables_of tables.old) board.old result (tables_of tables.new) board.new }
    ensures same_tables { SameTables tables.old tables.new }
{
    let a = check_with(Form::Old, day, file, tables, workspace);
    let v = a.verdict;
    if !stands(v) {
        return opening_answer(v);
    }
    let stored = &mut *tables.clauses;
    open_cells(day, file, stored, workspace.origins, a.clauses, board);
    opening_answer(v)
}

// Opens the board of a file on a day: the file is checked, and the tables are left as the check leaves them. The board is written only if the file stands.
pub fn open_board(day: u16, file: &[u8], tables: &mut LentTables, board: &mut [u16]) -> BoardAnswer
    ensures answered { BoardOpened day (old_file file.now) (tables_of tables.old) board.old result (tables_of tables.new) board.new }
    ensures same_tables { SameTables tables.old tables.new }
{
    if board.len() < 4097 {
        return BoardAnswer::Refused(2, 0);
    }
    let mut nodes = [0u16; 32768];
    let mut origins = [0u16; 32768];
    let mut values = [0u16; 524416];
    let mut workspace = LentWorkspace {
        nodes: &mut nodes,
        origins: &mut origins,
        values: &mut values,
    };
    open_with(day, file, tables, &mut workspace, board)
}

// Withdraws input clause n, with the file, the table of clauses and the board as they were left.
pub fn withdraw_clause(file: &[u8], clauses: &[u16], board: &mut [u16], n: u16) -> BoardAnswer
    ensures { BoardCalled (old_file file.now) clauses.now board.old n false result board.new }
{
    call(file, clauses, board, n, false)
}

// Returns input clause n.
pub fn return_clause(file: &[u8], clauses: &[u16], board: &mut [u16], n: u16) -> BoardAnswer
    ensures { BoardCalled (old_file file.now) clauses.now board.old n true result board.new }
{
    call(file, clauses, board, n, true)
}
