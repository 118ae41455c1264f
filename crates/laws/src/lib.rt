// No code: laws about the definitions of crate spec, which proofs of the code and of the theorems cite.
#![tactic(auto)]
