// What is claimed of every chain of calls on an endpoint: definitions and proofs, no code.
#![tactic(auto)]
