// Laws of whole numbers that the toolchain lacks. They stand in specs/; there is no code here.

#![tactic(auto)]
