// The collection in small steps as rules: definitions in specs/. There is no code here.

#![tactic(auto)]
