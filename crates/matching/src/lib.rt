// The literals of two clauses against each other: pairs of literals, their atoms matched by the crate images. `Pairs` and `Searching` in specs/ say what
// the functions answer and leave, also which two pairs go together, in the crate agreeing, and the search for the earliest choice, in the crate
// choosing; what it means stands in the crate cover.
#![tactic(auto)]

pub mod pairs;
