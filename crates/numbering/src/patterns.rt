// Patterns: each variable draws an id, and is bound to it.
ghost use Rattle.std.specs.Prelude.{◌≡◌, ◌+◌, ◌-◌, ◌≤◌, ◌<◌};
ghost use Rattle.source.specs.declared.Chain.TheVariants.{Parameters};
ghost use Rattle.source.specs.Nodes.{is_pattern};
ghost use Rattle.numbering.specs.Walks.{Ready, ReadyChain, PatternWalk, ParameterWalk};

use super::rows::Scopes;
use records::source_record::NO_LINK;
use source::{Node, Shape};
use source_check::nodes::Nodes;

impl Scopes {
    // The pattern of a node. An `as` draws its id after its pattern.
    pub fn number_pattern_variables(&mut self, nodes: &Nodes, k: usize)
        requires { Ready nodes.now.bytes.now nodes.now.at nodes.now.count is_pattern k self.old }
        ensures { PatternWalk nodes.now.bytes.now nodes.now.at nodes.now.count k self.old self.new }
    {
        let Node::Pattern(shape) = nodes.node(k) else {
            return;
        };
        match shape {
            Shape::As(p, x) => {
                self.number_pattern_variables(nodes, p);
                self.bind(x, k);
            }
            Shape::Product(p, q) | Shape::Cons(p, q) => {
                self.number_pattern_variables(nodes, p);
                self.number_pattern_variables(nodes, q);
            }
            Shape::Variable(x) => self.bind(x, k),
            Shape::Constant(_) | Shape::Unit | Shape::Nil => {}
        }
    }

    // The parameters from a link on, from the first to the last.
    pub fn number_parameters(&mut self, nodes: &Nodes, l: usize)
        requires { ReadyChain nodes.now.bytes.now nodes.now.at nodes.now.count Parameters l self.old }
        ensures { ParameterWalk nodes.now.bytes.now nodes.now.at nodes.now.count l self.old self.new }
    {
        let Node::Link(item, rest, _) = nodes.node(l) else {
            return;
        };
        self.number_pattern_variables(nodes, item);
        if rest != NO_LINK {
            self.number_parameters(nodes, rest);
        }
    }
}
