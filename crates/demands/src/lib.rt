// What is demanded of the check of a proof file, and that it holds: the condition of each reason, the three demands, and what each request promises.
// The definitions that it is about are in the crate verdict; there is no code.
#![tactic(auto)]
