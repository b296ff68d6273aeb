// What the words of a node say.
ghost use Rattle.std.specs.Prelude.{◌≡◌, eqb};
ghost use Rattle.std.specs.List.{list_all};
ghost use Rattle.source.specs.Nodes.{all_unused, infix_for, entry_for};

use super::{Form, Node, Shape};
use field::InfixOp;
use records::kinds::Kind;
use records::nodes::NodeEntry;
use words::integer;

// Whether all words are 0.
fn zeros(words: &[u32]) -> bool
    ensures { result ≡ list_all (λ w. eqb w 0) words.now }
{
    words.iter().all(|w| *w == 0)
}

// The node, where the words that it does not use are 0.
fn blank(unused: &[u32], node: Node) -> Option<Node>
    ensures { result ≡ all_unused unused.now (Some node) }
{
    zeros(unused).then_some(node)
}

// An operation on two expressions, where its operator is one.
#[tactic(auto, unfolding(crate::specs::Nodes::infix_for, marks::specs::Indices::pick))]
fn operation(c: u32, x: usize, y: usize) -> Option<Node>
    ensures { result ≡ infix_for c x y }
{
    let op = InfixOp::try_from(c).ok()?;
    Some(Node::Expression(Form::Infix(op, x, y)))
}

// What a node's words say.
#[tactic(auto, unfolding(crate::specs::Nodes::entry_for, marks::specs::Indices::pick))]
pub fn entry(node: NodeEntry) -> Option<Node>
    ensures { result ≡ entry_for node.kind node.a node.b node.c }
{
    let NodeEntry { kind, a, b, c } = node;
    let x = a as usize;
    let y = b as usize;
    match Kind::try_from(kind).ok()? {
        Kind::Unit => blank(&[a, b, c], Node::Expression(Form::Unit)),
        Kind::Nil => blank(&[a, b, c], Node::Expression(Form::Nil)),
        Kind::Product => blank(&[c], Node::Expression(Form::Product(x, y))),
        Kind::Cons => blank(&[c], Node::Expression(Form::Cons(x, y))),
        Kind::Infix => operation(c, x, y),
        Kind::Negate => blank(&[b, c], Node::Expression(Form::Negate(x))),
        Kind::Application => blank(&[c], Node::Expression(Form::Application(x, y))),
        Kind::Constant => blank(&[c], Node::Expression(Form::Constant(integer(a, b)))),
        Kind::Variable => blank(&[b, c], Node::Expression(Form::Variable(x))),
        Kind::Function => blank(&[c], Node::Expression(Form::Function(x, y))),
        Kind::Let => Some(Node::Expression(Form::Let(x, y, c as usize))),
        Kind::Match => blank(&[c], Node::Expression(Form::Match(x, y))),
        Kind::Sequence => blank(&[b, c], Node::Expression(Form::Sequence(x))),
        Kind::Link => Some(Node::Link(x, y, c as usize)),
        Kind::UnitPattern => blank(&[a, b, c], Node::Pattern(Shape::Unit)),
        Kind::NilPattern => blank(&[a, b, c], Node::Pattern(Shape::Nil)),
        Kind::AsPattern => blank(&[c], Node::Pattern(Shape::As(x, y))),
        Kind::ProductPattern => blank(&[c], Node::Pattern(Shape::Product(x, y))),
        Kind::ConsPattern => blank(&[c], Node::Pattern(Shape::Cons(x, y))),
        Kind::VariablePattern => blank(&[b, c], Node::Pattern(Shape::Variable(x))),
        Kind::ConstantPattern => blank(&[c], Node::Pattern(Shape::Constant(integer(a, b)))),
        _ => None,
    }
}
