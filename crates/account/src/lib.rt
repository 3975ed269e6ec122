// The account after any series of calls. The laws stand in specs/; there is no code here.

#![tactic(auto)]
