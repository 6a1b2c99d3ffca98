// The walk, the shape, the reason and its sentence as rules: definitions in specs/. There is no code here.

#![tactic(auto)]
