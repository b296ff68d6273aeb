// A plain module and its equalities say the same.
#![tactic(auto)]
