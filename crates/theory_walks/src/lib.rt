// Mathematics alone: the walk over what the roots lead to, and the sentence.

#![tactic(auto)]
