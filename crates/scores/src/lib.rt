// A list played back as keys. Definitions, statement and proof stand in specs/; there is no code here.

#![tactic(auto)]
