// Mathematics alone: what holds of heaps, whatever call is made.

#![tactic(auto)]
