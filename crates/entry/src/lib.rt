// What entering records of kind 1 to 4 takes: counts, the node table and the table of origins. In specs/, `Program` and `Progress` say how
// this program goes about it; what a record does to a state is in the crate verdict. Rows are entered by the crate row_entry, records by record_entry.
#![tactic(auto)]

pub mod entry;
pub mod rows;
