// Proofs only: demand 3 over the contracts of the public functions. They are in specs/.
#![tactic(auto)]
