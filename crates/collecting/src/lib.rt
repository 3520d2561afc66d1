// All literals of a clause, collected in a list. `Literals` in specs/ has the contracts.
#![tactic(auto)]

pub mod literals;
