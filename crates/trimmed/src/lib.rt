// What is shown of trimmed files (document 02, Q-12): the proofs of what the crate trimming states. There is no code.
#![tactic(auto)]
