// Theorems only: the parameters of a request by the history of a run with a queue.
#![tactic(auto)]
