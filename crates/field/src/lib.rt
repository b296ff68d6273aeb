// Arithmetic modulo P = 2,147,483,647. An element is the number from -1,073,741,823 to 1,073,741,823 congruent to it, in an i64.
// Every function takes any i64, which stands for its element.
#![tactic(auto, using(crate::proofs::Steps::steps))]

pub mod counts;
mod inverses;
pub mod operators;
mod residues;
mod whole;

ghost use Rattle.std.specs.Prelude.{◌≡◌};
ghost use Rattle.field.specs.Prime.{P};
ghost use Rattle.field.specs.Element.{elem};
ghost use Rattle.field.specs.Operations.{sum, difference, product, opposite, inverse_of, divide_of};
ghost use Rattle.field.specs.Operations.{divide_z_of, int_divide_of, modulo_of, exponentiate_of, infix_of};

use inverses::checked_inverse;
use residues::{P, centred, power_of, residue};
use whole::checked_quotient;

// The operations on two elements, in the order of their numbers: / | * + - = ^ \ %
#[derive(Clone, Copy, Debug, PartialEq, Eq, Hash)]
pub enum InfixOp {
    Divide,
    DivideZ,
    Multiply,
    Add,
    Subtract,
    Equal,
    Exponentiate,
    IntDivide,
    Modulo,
}

// The element that x is congruent to.
pub fn canonical(x: i64) -> i64
    ensures { result ≡ elem P x }
{
    centred(residue(x))
}

fn add(a: i64, b: i64) -> i64
    ensures { result ≡ sum P a b }
{
    centred((residue(a) + residue(b)) % P)
}

fn multiply(a: i64, b: i64) -> i64
    ensures { result ≡ product P a b }
{
    centred(residue(a) * residue(b) % P)
}

// The opposite.
pub fn negate(a: i64) -> i64
    ensures { result ≡ opposite P a }
{
    centred((P - residue(a)) % P)
}

fn subtract(a: i64, b: i64) -> i64
    ensures { result ≡ difference P a b }
{
    centred((residue(a) + (P - residue(b))) % P)
}

// The inverse, which 0 has not.
pub fn inverse(b: i64) -> Option<i64>
    ensures { result ≡ inverse_of P b }
{
    Some(centred(checked_inverse(residue(b))?))
}

fn divide(a: i64, b: i64) -> Option<i64>
    ensures { result ≡ divide_of P a b }
{
    let y = checked_inverse(residue(b))?;
    Some(centred(residue(a) * y % P))
}

// 0 over 0 is 0, as 0 over any other element is.
fn divide_z(a: i64, b: i64) -> Option<i64>
    ensures { result ≡ divide_z_of P a b }
{
    if residue(a) == 0 {
        return Some(0);
    }
    divide(a, b)
}

// A divisor that stands for 0 is answered before the dividend is worked out, here and in `modulo`.
fn int_divide(a: i64, b: i64) -> Option<i64>
    ensures { result ≡ int_divide_of P a b }
{
    let y = canonical(b);
    if y == 0 {
        return None;
    }
    let q = checked_quotient(canonical(a), y)?;
    Some(canonical(q))
}

fn modulo(a: i64, b: i64) -> Option<i64>
    ensures { result ≡ modulo_of P a b }
{
    let y = canonical(b);
    if y == 0 {
        return None;
    }
    let x = canonical(a);
    let q = checked_quotient(x, y)?;
    Some(subtract(x, multiply(y, q)))
}

// The exponent is an element: a power, or the inverse of one. That 0 has none is answered before a power is worked out.
fn exponentiate(a: i64, b: i64) -> Option<i64>
    ensures { result ≡ exponentiate_of P a b }
{
    let base = residue(a);
    let n = canonical(b);
    if n < 0 && base == 0 {
        return None;
    }
    let power = power_of(base, n.unsigned_abs());
    if n < 0 {
        return Some(centred(checked_inverse(power)?));
    }
    Some(centred(power))
}

// What an operation answers on two operands.
pub fn infix(op: InfixOp, a: i64, b: i64) -> Option<i64>
    ensures { result ≡ infix_of P op a b }
{
    match op {
        InfixOp::Divide => divide(a, b),
        InfixOp::DivideZ => divide_z(a, b),
        InfixOp::Multiply => Some(multiply(a, b)),
        InfixOp::Add => Some(add(a, b)),
        InfixOp::Subtract => Some(subtract(a, b)),
        InfixOp::Equal => None,
        InfixOp::Exponentiate => exponentiate(a, b),
        InfixOp::IntDivide => int_divide(a, b),
        InfixOp::Modulo => modulo(a, b),
    }
}
