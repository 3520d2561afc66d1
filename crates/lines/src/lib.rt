// The lines of the readout: a clause written out. What the readout is stands in `Readout` of the crate verdict; `Lines` in specs/ of the
// crate line_texts, and `Literals` of the crate collecting, say how the parts of this program go about it.
#![tactic(auto)]

pub mod line;
