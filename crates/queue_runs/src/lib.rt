// Theorems only: what holds beside isolation of runs with a queue.
#![tactic(auto)]
