// A tuner stays good. The laws stand in specs/; there is no code here.

#![tactic(auto)]
