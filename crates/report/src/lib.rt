#![tactic(auto)]
// The report of document 01: definitions only, in specs/.
