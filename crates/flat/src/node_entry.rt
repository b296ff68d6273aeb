// What the four words of a node say in a flat record.
ghost use Rattle.std.specs.Prelude.{◌≡◌, ◌<◌};
ghost use Rattle.flat.specs.Record.{node_for, node_fits, used_by};
ghost use Rattle.marks.specs.Marks.{Adds};
ghost use Rattle.records.specs.FlatRecord.{NODES};
ghost use Rattle.records.specs.Kinds.{INFIX, NEGATE};

use super::{Node, operator};
use marks::Marks;
use records::flat_record::NODES;
use records::kinds::Kind;
use records::nodes::NodeEntry;
use records::operators::MODULO;
use words::signed;

// What the words say; a kind of no flat record is read as a variable.
#[tactic(auto, unfolding(crate::specs::Record::node_for, crate::specs::Record::pick))]
impl From<NodeEntry> for Node {
    ghost from_gives = { λ n node. node ≡ node_for n.kind n.a n.b n.c };

    fn from(n: NodeEntry) -> Node {
        match Kind::try_from(n.kind) {
            Ok(Kind::Infix) => Node::Infix(operator(n.c), n.a as usize, n.b as usize),
            Ok(Kind::Negate) => Node::Negate(n.a as usize),
            Ok(Kind::Constant) => Node::Constant(signed(n.a)),
            _ => Node::Variable(n.a),
        }
    }
}

// Whether node k may be this, where ids lie below a limit.
// Kept as it is: the operator is compared with the last one, as the definition says it; a conversion would be made and dropped.
#[tactic(auto, unfolding(crate::specs::Record::node_fits, crate::specs::Record::pick))]
pub fn fits(n: NodeEntry, limit: usize, k: usize) -> bool
    ensures { result ≡ node_fits limit k n.kind n.a n.b n.c }
{
    match Kind::try_from(n.kind) {
        Ok(Kind::Infix) => (n.a as usize) < k && (n.b as usize) < k && n.c <= MODULO,
        Ok(Kind::Negate) => (n.a as usize) < k && n.b == 0 && n.c == 0,
        Ok(Kind::Constant) => n.b == 0 && n.c == 0,
        Ok(Kind::Variable) => (n.a as usize) < limit && n.b == 0 && n.c == 0,
        _ => false,
    }
}

// The node's children are used once more.
// Kept as it is: by kind, as `fits`. By Node, which was tried, six goals were left, for each case had to be led back to the words.
pub fn use_children(n: NodeEntry, marks: &mut Marks<NODES>)
    requires { (n.kind ≡ INFIX → (n.a < NODES) × (n.b < NODES)) × (n.kind ≡ NEGATE → n.a < NODES) }
    ensures { Adds marks.old marks.new (λ k. used_by k n.kind n.a n.b 0) }
{
    let Ok(kind) = Kind::try_from(n.kind) else {
        return;
    };
    match kind {
        Kind::Infix => {
            marks.add(n.a as usize);
            marks.add(n.b as usize);
        }
        Kind::Negate => marks.add(n.a as usize),
        _ => {}
    }
}
