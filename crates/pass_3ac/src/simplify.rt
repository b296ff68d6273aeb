// infix_op: the simplifications that the Rust makes, tried in its order; two constants are not folded.
ghost use Rattle.std.specs.Prelude.{◌≡◌};
ghost use Rattle.field.specs.declared.InfixOp.TheVariants.{DivideZ, Multiply, Add, Subtract, Modulo};
ghost use Rattle.constraint.specs.Trees.{Side as Right, written_of};
ghost use Rattle.pass_trees.specs.Passes.{is_one, is_zero, when, infix_op};
ghost use Rattle.pass_3ac.specs.Sides.{side_of};

use constraint::{Equality, Operation, Term};
use field::InfixOp;

// Of the number as it is written, not of its element.
#[tactic(auto, unfolding(pass_trees::specs::Passes::is_one, pass_trees::specs::Passes::same_number))]
fn is_one(t: Term) -> bool
    ensures { result ≡ is_one t }
{
    t == Term::Constant(1)
}

#[tactic(auto, unfolding(pass_trees::specs::Passes::is_zero, pass_trees::specs::Passes::same_number))]
fn is_zero(t: Term) -> bool
    ensures { result ≡ is_zero t }
{
    t == Term::Constant(0)
}

// A right side, as an equality has it: with the variable 0 where there is no second term.
#[derive(Clone, Copy)]
pub struct Side {
    pub operation: Operation,
    pub first: Term,
    pub second: Term,
}

impl Side {
    // The equality of a left term and this side.
    #[tactic(auto, unfolding(crate::specs::Sides::side_of, constraint::specs::Trees::written_of))]
    pub fn equality(self, left: Term) -> Equality
        ensures { (side : Right) → self ≡ side_of side → result ≡ written_of left side }
    {
        Equality {
            left,
            operation: self.operation,
            first: self.first,
            second: self.second,
        }
    }
}

#[tactic(auto, unfolding(crate::specs::Sides::side_of, constraint::specs::Trees::operation, constraint::specs::Trees::first, constraint::specs::Trees::second))]
pub fn copy(term: Term) -> Side
    ensures { result ≡ side_of (Right.copy term) }
{
    Side {
        operation: Operation::Copy,
        first: term,
        second: Term::Variable(0),
    }
}

#[tactic(auto, unfolding(crate::specs::Sides::side_of, constraint::specs::Trees::operation, constraint::specs::Trees::first, constraint::specs::Trees::second))]
pub fn negate(term: Term) -> Side
    ensures { result ≡ side_of (Right.negate term) }
{
    Side {
        operation: Operation::Negate,
        first: term,
        second: Term::Variable(0),
    }
}

#[tactic(auto, unfolding(crate::specs::Sides::side_of, constraint::specs::Trees::operation, constraint::specs::Trees::first, constraint::specs::Trees::second))]
fn plain(op: InfixOp, a: Term, b: Term) -> Side
    ensures { result ≡ side_of (Right.infixed op a b) }
{
    Side {
        operation: Operation::Infix(op),
        first: a,
        second: b,
    }
}

#[tactic(auto, unfolding(pass_trees::specs::Passes::infix_op, pass_trees::specs::Passes::when))]
fn multiply(a: Term, b: Term) -> Side
    ensures { result ≡ side_of (infix_op Multiply a b) }
{
    if is_one(a) {
        return copy(b);
    }
    if is_one(b) {
        return copy(a);
    }
    if is_zero(a) {
        return copy(a);
    }
    if is_zero(b) {
        return copy(b);
    }
    plain(InfixOp::Multiply, a, b)
}

#[tactic(auto, unfolding(pass_trees::specs::Passes::infix_op, pass_trees::specs::Passes::when))]
fn divide_z(a: Term, b: Term) -> Side
    ensures { result ≡ side_of (infix_op DivideZ a b) }
{
    if is_one(b) {
        return copy(a);
    }
    if is_zero(a) {
        return copy(a);
    }
    plain(InfixOp::DivideZ, a, b)
}

#[tactic(auto, unfolding(pass_trees::specs::Passes::infix_op, pass_trees::specs::Passes::when))]
fn add(a: Term, b: Term) -> Side
    ensures { result ≡ side_of (infix_op Add a b) }
{
    if is_zero(a) {
        return copy(b);
    }
    if is_zero(b) {
        return copy(a);
    }
    plain(InfixOp::Add, a, b)
}

// An operation that 1 on the right leaves as it is.
#[tactic(auto, unfolding(pass_trees::specs::Passes::infix_op, pass_trees::specs::Passes::when))]
fn unless_one(op: InfixOp, a: Term, b: Term) -> Side
    ensures { result ≡ side_of (when (is_one b) (Right.copy a) (Right.infixed op a b)) }
{
    if is_one(b) {
        return copy(a);
    }
    plain(op, a, b)
}

#[tactic(auto, unfolding(pass_trees::specs::Passes::infix_op, pass_trees::specs::Passes::when))]
fn subtract(a: Term, b: Term) -> Side
    ensures { result ≡ side_of (infix_op Subtract a b) }
{
    if is_zero(b) {
        return copy(a);
    }
    plain(InfixOp::Subtract, a, b)
}

#[tactic(auto, unfolding(pass_trees::specs::Passes::infix_op, pass_trees::specs::Passes::when))]
fn modulo(a: Term, b: Term) -> Side
    ensures { result ≡ side_of (infix_op Modulo a b) }
{
    if is_one(b) {
        return copy(Term::Constant(0));
    }
    plain(InfixOp::Modulo, a, b)
}

#[tactic(auto, unfolding(pass_trees::specs::Passes::infix_op, pass_trees::specs::Passes::when))]
pub fn infix_op(op: InfixOp, a: Term, b: Term) -> Side
    ensures { result ≡ side_of (infix_op op a b) }
{
    match op {
        InfixOp::Divide => unless_one(op, a, b),
        InfixOp::DivideZ => divide_z(a, b),
        InfixOp::Multiply => multiply(a, b),
        InfixOp::Add => add(a, b),
        InfixOp::Subtract => subtract(a, b),
        InfixOp::Equal => plain(op, a, b),
        InfixOp::Exponentiate => plain(op, a, b),
        InfixOp::IntDivide => unless_one(op, a, b),
        InfixOp::Modulo => modulo(a, b),
    }
}
