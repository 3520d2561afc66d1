// Which input clause covers which: what that is, and what is true of it. The definitions are in specs/; there is no code.
#![tactic(auto)]
