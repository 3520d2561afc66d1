// Files trimmed to what their accepted clause uses (document 02, Q-12): what that is, and what is shown of it. The definitions are in specs/; there is no code.
#![tactic(auto)]
