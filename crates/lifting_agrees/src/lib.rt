// Theorems only, in specs/: what the calls of the lift copy and say is what the whole capture comes to.
#![tactic(auto)]
