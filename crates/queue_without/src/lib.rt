// Theorems only: runs with a queue in which nothing is queued are runs without one.
#![tactic(auto)]
