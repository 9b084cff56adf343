#![tactic(auto)]
// The machine of document 01: definitions only, in specs/.
