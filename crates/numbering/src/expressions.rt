// Expressions: each variable is looked up, and patterns bind in their scopes. The node index falls at each call.
// Kept as it is: the contracts here, in listing.rt and patterns.rt hand on bytes, place and count one by one, since the definitions take these, no struct.
ghost use Rattle.std.specs.Prelude.{◌≡◌, ◌+◌, ◌-◌, ◌≤◌, ◌<◌};
ghost use Rattle.source.specs.declared.Chain.TheVariants.{Arms, Items};
ghost use Rattle.source.specs.Nodes.{is_expression, is_pattern};
ghost use Rattle.numbering.specs.Walks.{Ready, ReadyTwo, ReadyFunction, ReadyChain, ExpressionWalk, ScopeWalk, FunctionWalk, ItemWalk, ArmWalk};

use super::rows::Scopes;
use records::source_record::NO_LINK;
use source::{Form, Node};
use source_check::nodes::Nodes;

impl Scopes {
    // An expression in the scope of a pattern; at its end the rows are as they were.
    #[cycle(number_expr_variables)]
    fn number_scope(&mut self, nodes: &Nodes, p: usize, y: usize)
        requires { ReadyTwo nodes.now.bytes.now nodes.now.at nodes.now.count is_pattern p y self.old }
        ensures { ScopeWalk nodes.now.bytes.now nodes.now.at nodes.now.count p y self.old self.new }
    {
        let base = self.undo.len();
        self.number_pattern_variables(nodes, p);
        self.number_expr_variables(nodes, y);
        self.unwind(base);
    }

    // A function: its parameters bind in its body.
    #[cycle(number_expr_variables)]
    fn number_function(&mut self, nodes: &Nodes, l: usize, y: usize)
        requires { ReadyFunction nodes.now.bytes.now nodes.now.at nodes.now.count l y self.old }
        ensures { FunctionWalk nodes.now.bytes.now nodes.now.at nodes.now.count l y self.old self.new }
    {
        let base = self.undo.len();
        self.number_parameters(nodes, l);
        self.number_expr_variables(nodes, y);
        self.unwind(base);
    }

    // The items from a link on.
    // Kept as it is: a walk of links of its own, as `number_arms` and `number_parameters` are: one for all would take a closure that changes the rows.
    #[cycle(number_expr_variables)]
    fn number_items(&mut self, nodes: &Nodes, l: usize)
        requires { ReadyChain nodes.now.bytes.now nodes.now.at nodes.now.count Items l self.old }
        ensures { ItemWalk nodes.now.bytes.now nodes.now.at nodes.now.count l self.old self.new }
    {
        let Node::Link(item, rest, _) = nodes.node(l) else {
            return;
        };
        self.number_expr_variables(nodes, item);
        if rest != NO_LINK {
            self.number_items(nodes, rest);
        }
    }

    // The arms from a link on, each with its own scope.
    #[cycle(number_expr_variables)]
    fn number_arms(&mut self, nodes: &Nodes, l: usize)
        requires { ReadyChain nodes.now.bytes.now nodes.now.at nodes.now.count Arms l self.old }
        ensures { ArmWalk nodes.now.bytes.now nodes.now.at nodes.now.count l self.old self.new }
    {
        let Node::Link(item, rest, outcome) = nodes.node(l) else {
            return;
        };
        self.number_scope(nodes, item, outcome);
        if rest != NO_LINK {
            self.number_arms(nodes, rest);
        }
    }

    // The expression of a node. A let numbers its value before its pattern.
    #[cycle(number_expr_variables)]
    pub fn number_expr_variables(&mut self, nodes: &Nodes, k: usize)
        requires { Ready nodes.now.bytes.now nodes.now.at nodes.now.count is_expression k self.old }
        ensures { ExpressionWalk nodes.now.bytes.now nodes.now.at nodes.now.count k self.old self.new }
    {
        let Node::Expression(form) = nodes.node(k) else {
            return;
        };
        match form {
            Form::Product(x, y)
            | Form::Cons(x, y)
            | Form::Infix(_, x, y)
            | Form::Application(x, y) => {
                self.number_expr_variables(nodes, x);
                self.number_expr_variables(nodes, y);
            }
            Form::Negate(x) => self.number_expr_variables(nodes, x),
            Form::Variable(v) => self.ids[k] = self.number_variable(v),
            Form::Function(l, y) => self.number_function(nodes, l, y),
            Form::Let(p, x, y) => {
                self.number_expr_variables(nodes, x);
                self.number_scope(nodes, p, y);
            }
            Form::Match(x, l) => {
                self.number_expr_variables(nodes, x);
                self.number_arms(nodes, l);
            }
            Form::Sequence(l) => self.number_items(nodes, l),
            Form::Constant(_) | Form::Unit | Form::Nil => {}
        }
    }
}
