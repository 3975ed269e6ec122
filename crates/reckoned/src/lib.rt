// The report over the histories of the takes. Definitions, statement and proof stand in specs/; there is no code here.

#![tactic(auto)]
