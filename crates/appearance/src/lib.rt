// Variables numbered by first printed appearance, and the line of a clause in which they are (document 02, Q-10). The definitions are in specs/; there is no code.
#![tactic(auto)]
