// The rules of document 01 are the definitions in specs/. There is no code here.

#![tactic(auto)]
