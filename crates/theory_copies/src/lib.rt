// Mathematics alone: the copy into a second heap.

#![tactic(auto)]
