// What the evaluator's memory represents, and that each of its operations represents a step of evaluation on trees.
#![tactic(auto)]
