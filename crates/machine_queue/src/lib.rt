// Theorems only: requests are kept apart, and nothing is lost, where what a request writes may wait.
#![tactic(auto)]
