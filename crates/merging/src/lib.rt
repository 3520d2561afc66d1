// Two proof files merged into one: what that is, and what is shown of it. The definitions are in specs/; there is no code.
#![tactic(auto)]
