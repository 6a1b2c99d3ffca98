// What code writes of a copy into a second heap is what the rules say, on an undamaged first heap (request U14). Proofs are in proofs/.

#![tactic(auto)]
