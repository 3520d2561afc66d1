// The programs proofread and proofread_canonical: each reads two bytes of day, low byte first, and then a proof file from standard input, and prints a readout of the
// file on that day on standard output, and nothing else. It reads one byte more than a day and a file may have, so that a longer input is refused and an
// endless one ends. Where the input cannot be read it prints nothing, where the output cannot be written it stops, and standard error says which.
#![tactic(auto)]

pub mod arguments;
pub mod input;

use input::read_input;
use line_printing::report::unread;
use numbering::Naming;
use readout_printing::print_readout;
use std::io;

// Reads the input and prints its readout, with its variables named in either way.
pub fn run<R: io::Input + Print + Eprint + Alloc>(rt: &R, naming: Naming) {
    let mut space = [0u8; 65539];
    match read_input(&mut rt.reader(), &mut space) {
        Ok(n) => print_readout(rt, &space, n, naming),
        Err(error) => unread(rt, naming, error),
    }
}
