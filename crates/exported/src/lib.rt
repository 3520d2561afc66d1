// What the checks for C promise, in specs/, and the cells that they write their answers to.
#![tactic(auto)]

pub mod cells;
