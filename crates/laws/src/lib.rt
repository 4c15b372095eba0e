// Proofs only: facts about the definitions of `paper`, stated once for the crates above. They are in specs/.
#![tactic(auto)]
