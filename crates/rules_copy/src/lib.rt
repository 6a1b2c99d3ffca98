// The copy into a second heap as rules: definitions in specs/. There is no code here.

#![tactic(auto)]
