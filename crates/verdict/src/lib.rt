// What the check of a proof file is to answer: the rules of the format, and the case sheet. The definitions are in specs/; there is no code.
#![tactic(auto)]
