// What the check and the readouts give for one file, in few numbers.
#![tactic(auto)]

pub mod outcome;
