// The answer of a board: the lowest clause that stands, is in force and has no literals.
ghost use Rattle.std.specs.Prelude.{◌≡◌};
ghost use Rattle.boards.specs.Cells.{answers, lowest_answer};
ghost use Rattle.board_cells.specs.Given.{board_given};
ghost use Rattle.boards.specs.Board.{answer_numbers, answered};

use tables::cell;

// No such clause; its number; or refused: a number and a record.
#[derive(Clone, Copy)]
pub enum BoardAnswer {
    None,
    Clause(u16),
    Refused(u8, u16),
}

// Whether clause n stands, is in force and has no literals. Few clauses have none, so that the search goes straight on past the others.
fn is_answer(clauses: &[u16], board: &[u16], n: u16) -> bool
    ensures { result ≡ answers clauses.now board.now n }
{
    cell(clauses, 5 * (n as usize) + 1) == 0 && cell(board, n as usize) % 8 == 7
}

pub fn lowest_answer(clauses: &[u16], board: &[u16]) -> BoardAnswer
    ensures { board_given result ≡ answer_numbers (answered (lowest_answer clauses.now board.now 4096 0)) }
{
    for n in 0..4096 {
        if is_answer(clauses, board, n) {
            return BoardAnswer::Clause(n);
        }
    }
    BoardAnswer::None
}
