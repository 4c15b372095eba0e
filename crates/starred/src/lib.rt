// Proofs only: document 01's starred examples, computed. They are in specs/.
#![tactic(auto)]
