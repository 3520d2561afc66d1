// The answer of a board that is opened.
#![tactic(auto)]

ghost use Rattle.std.specs.Prelude.{◌≡◌};
ghost use Rattle.answer.specs.Given.{verdict_coded};
ghost use Rattle.board_cells.specs.Given.{board_given};

use answer::Verdict;
use board_cells::lowest::BoardAnswer;

// The answer of an opening, by the verdict of the check: all input clauses are present.
pub fn opening_answer(verdict: Verdict) -> BoardAnswer
    ensures { board_given result ≡ verdict_coded verdict }
{
    match verdict {
        Verdict::Open => BoardAnswer::None,
        Verdict::Accepted(n) => BoardAnswer::Clause(n),
        Verdict::Refused(number, k) => BoardAnswer::Refused(number, k),
    }
}
