// Theorems only: the cases that the papers want proved, in specs/.
#![tactic(auto)]
