// What the functions that write the lines of a readout ask and ensure, in specs/, and the laws of it that their proofs cite. No code.
#![tactic(auto)]
