// What the answer of a read means to the program proofread. `Reading` in specs/ has it as a definition.
#![tactic(auto)]

ghost use Rattle.std.specs.Prelude.{◌≡◌};
ghost use Rattle.read_answer.specs.Reading.{taken_of};

use std::io;
use std::ops::ControlFlow;

// What a read means after `done` bytes: bytes that came are so many more, no byte is the end, which makes the input whole, and where a read
// failed there is none.
pub fn taken(done: usize, answer: io::Result<usize>) -> ControlFlow<io::Result<usize>, usize>
    ensures { result ≡ taken_of done answer }
{
    match answer {
        Ok(0) => ControlFlow::Break(Ok(done)),
        Ok(n) => ControlFlow::Continue(n),
        Err(error) => ControlFlow::Break(Err(error)),
    }
}
