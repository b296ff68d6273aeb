// The four passes: classify_defs, copy_propagate, eliminate_dead_equalities, flatten_module_to_3ac. specs/ defines them, and says what is proved of them.
#![tactic(auto)]

// How a variable is used, from the least to the most.
#[derive(Clone, Copy, PartialEq, Eq, PartialOrd, Ord, Debug)]
pub enum Usage {
    Never,
    Witness,
    Constraint,
}
