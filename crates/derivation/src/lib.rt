// Clauses as derivations, and what is true of them. The definitions are in specs/: `Derivation` has the literals, the maximum index and
// the bindings of a clause; `Stored` has how the tables hold it. There is no code.
#![tactic(auto)]
