// What the programs read (document 02, Q-6): two bytes of day, low byte first, then the file. `Input` in specs/ has the contracts.
#![tactic(auto)]

ghost use Rattle.std.specs.Prelude.{◌≡◌};
ghost use Rattle.program_input.specs.Input.{day_of, file_part, InputsRead};

use std::ops::Range;

// The day that an input begins with; 0 where it has fewer than two bytes.
pub fn day_of(input: &[u8]) -> u16
    ensures { result ≡ day_of input.now }
{
    match input {
        [low, high, ..] => u16::from(*low) + 256 * u16::from(*high),
        _ => 0,
    }
}

// Where the file stands that came with n bytes of input, in the space that they were read into, from its first byte to the place behind
// its last: after the day. Where fewer than two bytes came it is one byte, which no file is, so that the check refuses it with 1.
#[tactic(auto, using(crate::proofs::Inputs::inputs_read))]
pub fn file_part(n: usize) -> Range<usize>
    ensures value { result ≡ file_part n }
    ensures inputs_read { InputsRead }
{
    if n < 2 { 0..1 } else { 2..n }
}
