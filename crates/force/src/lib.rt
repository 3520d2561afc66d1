// Rules in force (document 02, Q-6), as the program works them out: a flag for each clause. In specs/, `Flags` has the definitions, and proofs/ that they
// come to `Force` of the crate verdict; there is no code.
#![tactic(auto)]
