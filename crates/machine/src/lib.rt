// Theorems only: requests on one connection are kept apart, for any machine of one request.
#![tactic(auto)]
