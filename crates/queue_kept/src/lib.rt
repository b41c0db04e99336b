// Theorems only: what runs without a queue keep, for runs with a queue.
#![tactic(auto)]
