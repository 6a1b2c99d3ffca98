// Mathematics alone: the object graph, and what its machine keeps.

#![tactic(auto)]
