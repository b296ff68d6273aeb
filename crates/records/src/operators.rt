// The numbers of the operators that are written into nodes, and the highest.
// Kept as it is: `u32::from(InfixOp::Divide)` at each place is no plainer, and no constant.
use field::InfixOp;

pub const DIVIDE: u32 = InfixOp::Divide as u32;

pub const MULTIPLY: u32 = InfixOp::Multiply as u32;

pub const EXPONENTIATE: u32 = InfixOp::Exponentiate as u32;

pub const MODULO: u32 = InfixOp::Modulo as u32;
