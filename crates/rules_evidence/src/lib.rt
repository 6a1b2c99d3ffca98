// Evidence for the rules: cases, and wrong answers told apart. Nothing here has to be believed, and there is no code.

#![tactic(auto)]
