// A call on a board: one input clause is withdrawn or returned, the clauses that use it follow, and the answer is given anew. In specs/, `Called` has what a call
// promises of every board, file and table of clauses; the definitions are in the crate boards.
#![tactic(auto)]

ghost use Rattle.std.specs.Prelude.{◌≡◌, ◌<◌};
ghost use Rattle.record.specs.Record.{old_file};
ghost use Rattle.boards.specs.Cells.{is_input_cell, with_cell};
ghost use Rattle.board_calls.specs.Called.{BoardCalled};

use board_cells::cells::{cell_like, child_cell, force_cell, stands_cell};
use board_cells::lowest::{BoardAnswer, lowest_answer};
use board_cells::passing::pass;
use record::{Form, kind, record_part};
use tables::{cell, set_cell};

// Whether there is an input clause of number n.
fn is_input(file: &[u8], clauses: &[u16], board: &[u16], n: u16) -> bool
    ensures { result ≡ is_input_cell (old_file file.now) clauses.now board.now n }
{
    if n >= 4096 || cell(board, n as usize) < 4 {
        return false;
    }
    kind(record_part(Form::Old, file, cell(clauses, 5 * (n as usize)) as usize)) == 4
}

// Clause n is now present or not, and the clauses that use it stand or not accordingly.
fn change(file: &[u8], clauses: &[u16], board: &mut [u16], n: u16, present: bool)
    requires { n < 4096 }
    ensures { board.new ≡ with_cell (old_file file.now) clauses.now board.old n present }
{
    let x = cell(board, n as usize);
    let y = cell_like(x, force_cell(x), present);
    set_cell(board, n as usize, y);
    pass(file, clauses, board, n + 1, child_cell(x));
}

// Clause n is to be present or not. A board that is too short is refused with 2, a number of no input clause with 20, and with 21 where it is so already.
pub fn call(file: &[u8], clauses: &[u16], board: &mut [u16], n: u16, present: bool) -> BoardAnswer
    ensures { BoardCalled (old_file file.now) clauses.now board.old n present result board.new }
{
    if board.len() < 4097 {
        return BoardAnswer::Refused(2, 0);
    }
    if !is_input(file, clauses, board, n) {
        return BoardAnswer::Refused(20, 0);
    }
    if stands_cell(cell(board, n as usize)) == present {
        return BoardAnswer::Refused(21, 0);
    }
    change(file, clauses, board, n, present);
    lowest_answer(clauses, board)
}
