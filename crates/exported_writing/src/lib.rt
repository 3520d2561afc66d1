// The answer of a function that writes a file in four numbers, for C.
#![tactic(auto)]

ghost use Rattle.std.specs.Prelude.{◌≡◌, ◌++◌, ◌≤◌, length, drop};
ghost use Rattle.writing_answer.specs.Given.{writing_given};

use writing_answer::NotWritten;

// Writes the four numbers of an answer to the first four cells: 0 written or 2 not; the length or the reason; the file; the record.
pub fn put_writing(m: Result<u32, NotWritten>, answer: &mut [u32])
    requires { 4 ≤ length answer.old }
    ensures { answer.new ≡ writing_given m ++ drop 4 answer.old }
{
    let numbers = match m {
        Ok(length) => [0, length, 0, 0],
        Err(e) => [2, e.reason.number() as u32, e.file as u32, e.at as u32],
    };
    answer[..4].copy_from_slice(&numbers);
}
