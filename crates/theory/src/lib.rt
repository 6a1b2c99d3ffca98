// The mathematics of the rules: what holds of them, with no code. Proofs are in proofs/.

#![tactic(auto)]
