// Theorems only: the second run of isolation with a queue exists; when a turn of the pump stops early.
#![tactic(auto)]
