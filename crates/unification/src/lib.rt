// Terms, following and unification, and what is true of them. The definitions are in specs/: `Unification` has what unification is;
// `Nodes`, `ValueArray` and `Bindings` have how a program keeps rows and bindings. There is no code.
#![tactic(auto)]
