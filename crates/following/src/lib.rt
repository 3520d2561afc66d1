// The node table, the array of values and following. `Walks` and `Clearing` in specs/ have the contracts, `Walks` also those of the occurrence
// test, which is in the crate occurrence; what following is stands in the crate unification.
#![tactic(auto)]

pub mod failure;
pub mod follow;
pub mod lent;
pub mod nodes;
pub mod values;
