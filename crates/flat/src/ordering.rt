// Each id is defined once, and no right side uses an id defined there or later.
ghost use Rattle.std.specs.Prelude.{◌≡◌, ◌+◌, ◌<◌, ◌≤◌, true, false, get_or, not};
ghost use Rattle.flat.specs.Trees.{every_id};
ghost use Rattle.flat.specs.Record.{rows, tree, definition_at, definitions_fit, nodes_fit, ordered};
ghost use Rattle.records.specs.FlatRecord.{IDS};

use super::entries::definition_at;
use super::measured::Measured;
use super::{Node, node_at};
use records::flat_record::ID_COUNT;

impl Measured<'_> {
    // Whether no variable of node k's tree is marked. The node index falls at each call.
    fn free(&self, k: usize, later: &[bool; ID_COUNT]) -> bool
        requires node { k < self.now.layout.nodes }
        requires fit { nodes_fit self.now.bytes.now self.now.layout.nodes_at self.now.layout.nodes self.now.layout.next ≡ true }
        requires ids { self.now.layout.next ≤ IDS }
        ensures { result ≡ every_id (λ v. not (get_or later.now v false)) (tree self.now.bytes.now self.now.layout.nodes_at (k + 1) k) }
    {
        match node_at(self.bytes, self.layout.nodes_at, k) {
            Node::Infix(_, x, y) => self.free(x, later) && self.free(y, later),
            Node::Negate(x) => self.free(x, later),
            Node::Constant(_) => true,
            Node::Variable(v) => !later[v as usize],
        }
    }

    // From the last definition to the first; an id is marked before its right side is walked.
    // Kept as it is: a loop that returns false: the marks change on the way, and `all` would take a closure that changes them.
    pub fn in_order(&self) -> bool
        requires definitions { definitions_fit self.now.bytes.now self.now.layout.definitions_at self.now.layout.definitions self.now.layout.next
            self.now.layout.nodes ≡ true }
        requires fit { nodes_fit self.now.bytes.now self.now.layout.nodes_at self.now.layout.nodes self.now.layout.next ≡ true }
        requires ids { self.now.layout.next ≤ IDS }
        ensures { result ≡ ordered (rows self.now.layout.definitions 0
            (definition_at self.now.bytes.now self.now.layout.definitions_at self.now.layout.nodes_at self.now.layout.nodes)) }
    {
        let l = &self.layout;
        let mut later = [false; ID_COUNT];
        for k in (0..l.definitions).rev() {
            let d = definition_at(self.bytes, l.definitions_at, k);
            let id = d.id as usize;
            if later[id] {
                return false;
            }
            later[id] = true;
            if !self.free(d.node, &later) {
                return false;
            }
        }
        true
    }
}
