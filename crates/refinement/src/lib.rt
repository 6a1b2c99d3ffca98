// What the procedures of the code crates compute is what the rules say, on healthy heaps. Proofs are in proofs/.

#![tactic(auto)]
