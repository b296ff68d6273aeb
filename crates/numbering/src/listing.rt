// The definitions and the expressions of a module, from the first to the last.
ghost use Rattle.std.specs.Prelude.{◌≡◌, true, ◌+◌, ◌*◌, ◌≤◌, length};
ghost use Rattle.source.specs.Layout.{DEFINITION-WORDS};
ghost use Rattle.source.specs.Nodes.{is_pattern, definitions_fit, expressions_fit};
ghost use Rattle.numbering.specs.Walks.{depth, ReadyTwo, ReadyDefinitions, ReadyExpressions, DefinitionWalk, DefinitionsWalk, ExpressionsWalk};

use super::rows::Scopes;
use source::lists::{definition_at, expression_at};
use source_check::nodes::Nodes;

// Kept as it is: loops by index: what is left of a list is said by its index, in the definitions and in each loop's invariant.
impl Scopes {
    // A definition of a pattern by a value: the value before the pattern, whose names stay bound and so leave the undo list.
    fn number_def_variables(&mut self, nodes: &Nodes, p: usize, v: usize)
        requires { ReadyTwo nodes.now.bytes.now nodes.now.at nodes.now.count is_pattern p v self.old }
        ensures { DefinitionWalk nodes.now.bytes.now nodes.now.at nodes.now.count p v self.old self.new }
    {
        let base = self.undo.len();
        self.number_expr_variables(nodes, v);
        self.number_pattern_variables(nodes, p);
        self.undo.truncate(base);
    }

    // The definitions whose pairs start at word `list`.
    pub fn number_definitions(&mut self, nodes: &Nodes, list: usize, count: usize)
        requires long { 4 * (list + DEFINITION-WORDS * count) ≤ length nodes.now.bytes.now }
        requires fit { definitions_fit nodes.now.bytes.now nodes.now.at nodes.now.count list count ≡ true }
        requires ready { ReadyDefinitions nodes.now.bytes.now nodes.now.at nodes.now.count list count 0 self.old.next (depth self.old) }
        ensures { DefinitionsWalk nodes.now.bytes.now nodes.now.at nodes.now.count list count 0 self.old self.new }
    {
        for i in 0..count {
            let d = definition_at(nodes.bytes, list, i);
            self.number_def_variables(nodes, d.pattern as usize, d.value as usize);
        }
    }

    // The expressions whose nodes start at word `list`.
    pub fn number_expressions(&mut self, nodes: &Nodes, list: usize, count: usize)
        requires long { 4 * (list + count) ≤ length nodes.now.bytes.now }
        requires fit { expressions_fit nodes.now.bytes.now nodes.now.at nodes.now.count list count ≡ true }
        requires ready { ReadyExpressions nodes.now.bytes.now nodes.now.at nodes.now.count list count 0 self.old.next (depth self.old) }
        ensures { ExpressionsWalk nodes.now.bytes.now nodes.now.at nodes.now.count list count 0 self.old self.new }
    {
        for i in 0..count {
            let e = expression_at(nodes.bytes, list, i);
            self.number_expr_variables(nodes, e as usize);
        }
    }
}
