// The numbers of the operators, as the records have them.
ghost use Rattle.std.specs.Prelude.{◌≡◌};
ghost use Rattle.field.specs.Operators.{operator_number, Numbers};

use super::InfixOp;

// A number of no operator.
#[derive(Clone, Copy, Debug, PartialEq, Eq, Hash)]
pub struct NoOperator(pub u32);

impl From<InfixOp> for u32 {
    ghost from_gives = { λ op n. n ≡ operator_number op };

    fn from(op: InfixOp) -> u32 {
        op as u32
    }
}

impl TryFrom<u32> for InfixOp {
    type Error = NoOperator;

    ghost try_from_gives = { Numbers };

    fn try_from(number: u32) -> Result<Self, NoOperator> {
        match number {
            0 => Ok(InfixOp::Divide),
            1 => Ok(InfixOp::DivideZ),
            2 => Ok(InfixOp::Multiply),
            3 => Ok(InfixOp::Add),
            4 => Ok(InfixOp::Subtract),
            5 => Ok(InfixOp::Equal),
            6 => Ok(InfixOp::Exponentiate),
            7 => Ok(InfixOp::IntDivide),
            8 => Ok(InfixOp::Modulo),
            _ => Err(NoOperator(number)),
        }
    }
}
