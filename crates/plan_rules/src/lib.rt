// The run of a plan and its listing, as definitions above those of `rules` and `plan_file`: specs/ has them, proofs/ the
// theorems. There is no code to go with it.

#![tactic(auto)]
