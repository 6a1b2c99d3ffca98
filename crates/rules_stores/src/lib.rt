// Format, counting, freeing, stores and the full collection as rules: definitions in specs/. There is no code here.

#![tactic(auto)]
