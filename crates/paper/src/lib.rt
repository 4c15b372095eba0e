#![tactic(auto)]
// Definitions only: document 01 as definitions that compute. They are in specs/, in the order of its sections.
