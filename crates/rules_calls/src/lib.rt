// The calls: what each answers, and what a public function promises. Definitions in specs/. There is no code here.

#![tactic(auto)]
