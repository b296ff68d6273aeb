// Definitions, equations and nodes fit, and every node is used exactly once: marks, set at each use.
ghost use Rattle.std.specs.Prelude.{◌≡◌, true};
ghost use Rattle.flat.specs.Record.{definitions_fit, equations_fit, nodes_fit, by_nodes, by_definitions, by_equations, trees_hold};
ghost use Rattle.marks.specs.Marks.{Adds};

use super::entries::{definition_at, equation_at};
use super::measured::Measured;
use super::node_entry::{fits, use_children};
use marks::Marks;
use records::flat_record::NODES;
use records::nodes::NodeEntry;

// Kept as it is: the contracts, here and in ordering.rt, hand on places and counts one by one, since the definitions take these with the bytes, and no struct.
// Kept as it is: loops that return false: the marks change on the way, and `all` would take a closure that changes them.
impl Measured<'_> {
    // Whether the nodes fit; then their children are marked.
    fn read_nodes(&self, marks: &mut Marks<NODES>) -> bool
        ensures fit { result ≡ nodes_fit self.now.bytes.now self.now.layout.nodes_at self.now.layout.nodes self.now.layout.next }
        ensures marks { result ≡ true → Adds marks.old marks.new (by_nodes self.now.bytes.now self.now.layout.nodes_at self.now.layout.nodes) }
    {
        let l = &self.layout;
        for k in 0..l.nodes {
            let node = NodeEntry::read(self.bytes, l.nodes_at, k);
            if !fits(node, l.next, k) {
                return false;
            }
            use_children(node, marks);
        }
        true
    }

    // Whether the definitions fit; then their nodes are marked.
    fn read_definitions(&self, marks: &mut Marks<NODES>) -> bool
        ensures fit { result ≡ definitions_fit self.now.bytes.now self.now.layout.definitions_at self.now.layout.definitions self.now.layout.next
            self.now.layout.nodes }
        ensures marks { result ≡ true
            → Adds marks.old marks.new (by_definitions self.now.bytes.now self.now.layout.definitions_at self.now.layout.definitions) }
    {
        let l = &self.layout;
        for k in 0..l.definitions {
            let d = definition_at(self.bytes, l.definitions_at, k);
            if l.next <= d.id as usize || l.nodes <= d.node {
                return false;
            }
            marks.add(d.node);
        }
        true
    }

    // Whether the sides of the equations are nodes; then these are marked.
    fn read_equations(&self, marks: &mut Marks<NODES>) -> bool
        ensures fit { result ≡ equations_fit self.now.bytes.now self.now.layout.equations_at self.now.layout.equations self.now.layout.nodes }
        ensures marks { result ≡ true → Adds marks.old marks.new (by_equations self.now.bytes.now self.now.layout.equations_at self.now.layout.equations) }
    {
        let l = &self.layout;
        for k in 0..l.equations {
            let e = equation_at(self.bytes, l.equations_at, k);
            if l.nodes <= e.left || l.nodes <= e.right {
                return false;
            }
            marks.add(e.left);
            marks.add(e.right);
        }
        true
    }

    // Whether the definitions, the equations and the nodes fit and use each node once.
    pub fn trees_hold(&self) -> bool
        ensures { result ≡ trees_hold self.now.bytes.now self.now.layout.next self.now.layout.definitions_at self.now.layout.definitions
            self.now.layout.equations_at self.now.layout.equations self.now.layout.nodes_at self.now.layout.nodes }
    {
        let mut marks = Marks::new();
        self.read_definitions(&mut marks)
            && self.read_equations(&mut marks)
            && self.read_nodes(&mut marks)
            && marks.all_once(self.layout.nodes)
    }
}
