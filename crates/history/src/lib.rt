// The history of a take. Its definitions and laws stand in specs/; there is no code here.

#![tactic(auto)]
