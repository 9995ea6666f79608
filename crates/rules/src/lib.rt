// Document 01 as definitions: specs/ has no code to go with it. The theorems about them are in
// proofs/; the crates above prove their code equal to these definitions.

#![tactic(auto)]
