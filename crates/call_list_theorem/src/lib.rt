// Demand 3 of the program: one theorem over every list of calls that keep their contracts, and the
// same of the functions of `runtime` and `host` themselves. No code: specs/ and proofs/ only.

#![tactic(auto)]
