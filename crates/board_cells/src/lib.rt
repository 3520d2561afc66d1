// The board of a checked file, cell by cell: the cell of a clause from those of its parents, one pass over the clauses, the answer, and a call. In specs/,
// `Given` has the numbers of an answer and `Called` what a call promises; the definitions are in the crate boards.
#![tactic(auto)]

pub mod cells;
pub mod lowest;
pub mod passing;
