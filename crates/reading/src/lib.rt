// Records read one after another. `Reader` in specs/ says how this program goes about it.
#![tactic(auto)]

pub mod reader;
