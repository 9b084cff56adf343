#![tactic(auto)]
// The trainer's notebook: see specs/. No code runs here.
