// The board of a checked file: which input clauses are present, and what then stands. The definitions and what is shown of them are in specs/; there is no code.
#![tactic(auto)]
