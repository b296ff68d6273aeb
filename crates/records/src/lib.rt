// The numbers that several parts share: kinds of nodes, operators, limits of the records and of evaluation, ids of the intrinsics. The definitions have them
// by the same names.
#![tactic(auto)]

pub mod evaluation;
pub mod flat_record;
pub mod intrinsics;
pub mod kinds;
pub mod nodes;
pub mod operators;
pub mod refusals;
pub mod source_record;

// A node is four words: kind, a, b, c.
pub const NODE_WORDS: usize = 4;
