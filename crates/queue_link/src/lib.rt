// Theorems only: runs with a queue are runs of the machine with a queue.
#![tactic(auto)]
