// Records of two files that are to be merged: the first step of a file, the first symbol of the second that differs, and the second's records
// written behind the first's with their numbers raised. In specs/, `Shifting` says how this program goes about it; what a merge is, the crate merging has.
#![tactic(auto)]

pub mod record_writing;
