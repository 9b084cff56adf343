#![tactic(auto)]
// Demand 3 of document 01: a clean report means no race, in every order of steps. Statement and proof, in specs/.
