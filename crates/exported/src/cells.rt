// The answer of a check in seven cells.
ghost use Rattle.std.specs.Prelude.{◌≡◌, ◌++◌, ◌≤◌, length, drop};
ghost use Rattle.answer.specs.Given.{answer_given};

use answer::Answer;

// Writes the seven numbers of an answer to the first seven cells.
pub fn put(a: Answer, answer: &mut [u16])
    requires { 7 ≤ length answer.old }
    ensures { answer.new ≡ answer_given a ++ drop 7 answer.old }
{
    answer[..7].copy_from_slice(&<[u16; 7]>::from(a));
}
