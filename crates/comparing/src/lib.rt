// Two clauses compared after a check. In specs/, `Given` says which numbers the answer stands for, and `Comparing` how the parts of this program go about it.
// Literals are matched and choices searched by the crate matching.
#![tactic(auto)]

pub mod compare;
pub mod covering;
