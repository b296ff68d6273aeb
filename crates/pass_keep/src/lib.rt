// The definitions of prover variables, kept uncut with the substitutions made: pairs of id and node in the body, nodes in a list of their own.
#![tactic(auto)]

ghost use Rattle.std.specs.Prelude.{◌≡◌, ℕ, [], ◌∷◌, ◌<◌};
ghost use Rattle.flat.specs.Trees.{tree_nodes, definitions_nodes};
ghost use Rattle.flat.specs.Layout.{definitions, nodes, node_words};
ghost use Rattle.flat.specs.Record.{module_of};
ghost use Rattle.constraint.specs.Record.{nodes_from};
ghost use Rattle.pass_trees.specs.Passes.{to_expr, counted, copy_propagate_expr};
ghost use Rattle.pass_classify.specs.Readable.{tree_of};
ghost use Rattle.pass_copies.specs.Substituted.{subst_of, put_definitions};
ghost use Rattle.pass_keep.specs.Keeping.{record_kept, put_kept, put_nodes, kept_from, Keeps};
ghost use Rattle.pass_keep.specs.Writers.{NodePut, TreePut, Lent, NodesIn, WordsIn, place_of};
ghost use Rattle.records.specs.FlatRecord.{IDS};

use constraint::{KEPT_WORDS, Term};
use flat::Node;
use flat::entries::{DefinitionEntry, put_definition, put_node};
use pass_classify::Classes;
use pass_classify::record::Record;
use pass_copies::Substitutions;
use records::NODE_WORDS;
use records::kinds::{CONSTANT, INFIX, NEGATE, VARIABLE};
use records::nodes::NodeEntry;
use words::unsigned;

// The node of a term.
fn leaf(term: Term) -> NodeEntry
    ensures { (base : ℕ) → node_words result.kind result.a result.b result.c ≡ nodes_from base (to_expr term) }
{
    match term {
        Term::Variable(v) => NodeEntry {
            kind: VARIABLE,
            a: v,
            b: 0,
            c: 0,
        },
        Term::Constant(c) => NodeEntry {
            kind: CONSTANT,
            a: unsigned(c),
            b: 0,
            c: 0,
        },
    }
}

// Writes kept definitions: into the body from word `at` on, and their nodes into the list from node `nodes` on.
#[derive(Drop)]
pub struct Writer<'a> {
    pub body: &'a mut [u8],
    pub at: usize,
    pub list: &'a mut [u8],
    pub nodes: usize,
}

impl Writer<'_> {
    // One node more; answers its index.
    // Kept as it is: four words, which its callers name; of a Node their indices would be widened to usize, and narrowed again here.
    fn push_node(&mut self, node: NodeEntry) -> u32
        requires { NodesIn 1 self.old }
        ensures { NodePut (node_words node.kind node.a node.b node.c) result self.old self.new }
    {
        let index = self.nodes as u32;
        put_node(self.list, NODE_WORDS * self.nodes, node);
        self.nodes += 1;
        index
    }

    // The nodes of node k's tree, with the substitutions made, children first; answers the index of the root. The node index falls at each call.
    fn put_tree(&mut self, record: &Record, k: usize, subs: &Substitutions) -> u32
        requires { (k < nodes record.now.bytes.now) × NodesIn (tree_nodes (tree_of record.now.bytes.now k)) self.old }
        ensures { TreePut (copy_propagate_expr subs.now.steps (subst_of subs.now.terms) (tree_of record.now.bytes.now k)) result self.old self.new }
    {
        match record.node(k) {
            Node::Infix(op, x, y) => {
                let a = self.put_tree(record, x, subs);
                let b = self.put_tree(record, y, subs);
                self.push_node(NodeEntry {
                    kind: INFIX,
                    a,
                    b,
                    c: u32::from(op),
                })
            }
            Node::Negate(x) => {
                let a = self.put_tree(record, x, subs);
                self.push_node(NodeEntry {
                    kind: NEGATE,
                    a,
                    b: 0,
                    c: 0,
                })
            }
            Node::Constant(c) => self.push_node(leaf(Term::Constant(c))),
            Node::Variable(v) => self.push_node(leaf(subs.resolve(v))),
        }
    }

    // One definition: nothing where it is not used, its substitution where its id is not the prover's, else it is kept, with its place.
    fn keep_def(&mut self, classes: &Classes, d: DefinitionEntry, subs: &mut Substitutions)
        requires inside { (d.id < IDS) × (d.node < nodes classes.now.record.bytes.now) }
        requires word_room { WordsIn 1 self.old × NodesIn (tree_nodes (tree_of classes.now.record.bytes.now d.node)) self.old }
        ensures keeps { Keeps classes.now.record.bytes.now subs.old.steps
            (record { id = d.id; right = tree_of classes.now.record.bytes.now d.node; place = d.place } ∷ []) self.old.at self.old.nodes subs.old.terms
            self.old.body.now self.old.list.now subs.new.terms self.new.body.now self.new.list.now (place_of self.new) }
        ensures lent { Lent self.old self.new }
        ensures steps { subs.new.steps ≡ subs.old.steps }
    {
        let id = d.id as usize;
        let record = &classes.record;
        if classes.is_never(id) {
            return;
        }
        if !classes.is_prover(id) {
            subs.substitute(record, d);
            return;
        }
        let root = self.put_tree(record, d.node, subs);
        put_definition(self.body, self.at, d.id, root, d.place);
        self.at += KEPT_WORDS;
    }

    // The definitions of a readable record that are kept, in their order.
    pub fn keep_defs(&mut self, classes: &Classes, subs: &mut Substitutions)
        requires { WordsIn (definitions classes.now.record.bytes.now) self.old
            × NodesIn (definitions_nodes (module_of classes.now.record.bytes.now).definitions) self.old }
        ensures body_after { self.new.body ≡ record self.old.body {
          now = put_kept self.old.body.now self.old.at self.old.nodes (record_kept classes.now.record.bytes.now subs.old.steps subs.old.terms);
        } }
        ensures list_after { self.new.list ≡ record self.old.list {
          now = put_nodes self.old.list.now self.old.nodes (record_kept classes.now.record.bytes.now subs.old.steps subs.old.terms);
        } }
        ensures value { place_of self.new ≡ kept_from self.old.at self.old.nodes (record_kept classes.now.record.bytes.now subs.old.steps subs.old.terms) }
        ensures subs_after { subs.new.terms ≡ put_definitions subs.old.steps subs.old.terms (counted (module_of classes.now.record.bytes.now)) }
        ensures steps { subs.new.steps ≡ subs.old.steps }
    {
        let record = &classes.record;
        for k in 0..record.layout.definitions {
            self.keep_def(classes, record.definition(k), subs);
        }
    }
}
