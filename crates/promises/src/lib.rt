// What the delivered calls mean together: no code, only theorems over their contracts, one file of proofs/ a subject.
#![tactic(auto)]
