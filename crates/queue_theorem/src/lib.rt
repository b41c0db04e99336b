// Theorems only: what is promised of runs with a queue, proved.
#![tactic(auto)]
