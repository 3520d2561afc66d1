// What a function answers and leaves that writes a file, and what is shown of it. The definitions are in specs/; there is no code.
#![tactic(auto)]
