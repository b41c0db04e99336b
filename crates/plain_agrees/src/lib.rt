// Theorems only: the plain receiver and the stepping one agree, in specs/.
#![tactic(auto)]
