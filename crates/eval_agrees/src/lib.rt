// Evaluation over the memory gives what evaluation on trees gives.
#![tactic(auto)]
