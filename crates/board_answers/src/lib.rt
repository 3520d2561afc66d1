// The answer of a board in three numbers.
#![tactic(auto)]

ghost use Rattle.std.specs.Prelude.{◌≡◌, ◌++◌, ◌≤◌, length, drop};
ghost use Rattle.board_cells.specs.Given.{board_given};

use board_cells::lowest::BoardAnswer;

// The numbers of an answer: 0 none, 1 a clause, 2 refused; the clause or the reason; the record.
fn board_numbers(a: BoardAnswer) -> [u16; 3]
    ensures { result ≡ board_given a }
{
    match a {
        BoardAnswer::None => [0, 0, 0],
        BoardAnswer::Clause(n) => [1, n, 0],
        BoardAnswer::Refused(q, k) => [2, q as u16, k],
    }
}

// Writes the three numbers of an answer to the first three cells.
pub fn put_board(a: BoardAnswer, answer: &mut [u16])
    requires { 3 ≤ length answer.old }
    ensures { answer.new ≡ board_given a ++ drop 3 answer.old }
{
    answer[..3].copy_from_slice(&board_numbers(a));
}
