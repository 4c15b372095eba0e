// Proofs only: demand 3, a program that the judge accepts never races, whatever the schedule. They are in specs/.
#![tactic(auto)]
