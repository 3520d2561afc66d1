// Symbols, rows and clauses renumbered (document 02, Q-12): what that is, in specs/, and what it leaves as it was, in proofs/. There is no code.
#![tactic(auto)]
