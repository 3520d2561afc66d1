// How the program goes about trimming (document 02, Q-12): which records it marks, from the last one down, and which numbers the marked ones get. The definitions are in specs/, and in
// proofs/ that this is the trimmed file of the crate trimming; there is no code.
#![tactic(auto)]
