// Same clause, same line (document 02, Q-10): what the second readout promises of any two clauses. The statement is in specs/; there is no code.
#![tactic(auto)]
