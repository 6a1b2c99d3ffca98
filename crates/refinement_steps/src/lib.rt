// What the procedures of steps and close compute is what the rules say, on healthy heaps. Proofs are in proofs/.

#![tactic(auto)]
