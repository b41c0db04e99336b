// Theorems only: the receiver's rules for one request whose output may wait, as a machine of one request.
#![tactic(auto)]
