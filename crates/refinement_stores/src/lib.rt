// What code leaves of a store or an allocation, with its marks and its list, is what the rules say, on undamaged heaps. Proofs are in
// proofs/.

#![tactic(auto)]
