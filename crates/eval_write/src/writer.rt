// What writes the nodes of the flat lists, and the lists.
ghost use Rattle.std.specs.Prelude.{◌≡◌, ◌-◌, ◌≤◌};
ghost use Rattle.eval_write.specs.Written.{leaf_word};
ghost use Rattle.flat.specs.Layout.{LAST-DEFINITIONS-AT, LAST-EQUATIONS-AT, LAST-NODES-AT};
ghost use Rattle.records.specs.FlatRecord.{LISTED, NODES};
ghost use Rattle.eval_memory.specs.Fall.{upto};

use crate::FlatBytes;
use eval_memory::Memory;
use eval_memory::columns::Row;
use eval_memory::nodes::part;
use eval_memory::numbers::FLAT_NODES;
use eval_places::{Column, Places};
use flat::entries::{DEFINITION_WORDS, EQUATION_WORDS, put_definition, put_equation, put_node};
use flat::narrow::narrow;
use records::NODE_WORDS;
use records::flat_record::NODES;
use records::kinds::{INFIX, Kind, NEGATE};
use records::nodes::NodeEntry;
use words::integer;

// The word of a leaf: a variable's id, or a constant's number as a flat list has it.
#[tactic(auto, unfolding(crate::specs::Written::leaf_word))]
fn leaf_word(memory: &Memory, n: u32) -> u32
    ensures { result ≡ leaf_word memory.now.fixed memory.now.store.now n }
{
    let a = memory.node_word(n, 1);
    if memory.kind(n) != Kind::Constant {
        return a;
    }
    narrow(integer(a, memory.node_word(n, 2)))
}

// The nodes of a flat record as they are written: from word `at` on, so many of them.
#[derive(Drop)]
pub struct Writer<'a, 'm> {
    pub memory: &'a Memory<'m>,
    pub out: &'a mut FlatBytes,
    pub at: usize,
    pub nodes: u32,
    ghost placed: { at ≤ LAST-NODES-AT },
    ghost few: { nodes ≤ NODES },
}

// What a reference in a struct with ghost fields refers to is lent by a variable of its own, `out`.
impl Writer<'_, '_> {
    ghost use Rattle.eval_write.specs.Writers.{Wrote};
    ghost use Rattle.eval_write.specs.Written.{add_node, write_body, write_tree, write_definitions, write_equations};

    // One more node, where the record has room for it.
    #[tactic(auto, unfolding(crate::specs::Written::add_node))]
    fn add(&mut self, kind: u32, a: u32, b: u32, c: u32)
        ensures { Wrote (add_node self.old.at kind a b c) self.old self.new }
    {
        if FLAT_NODES <= self.nodes {
            return;
        }
        let at = self.at + NODE_WORDS * (self.nodes as usize);
        let out = &mut *self.out;
        put_node(out, at, NodeEntry { kind, a, b, c });
        self.nodes += 1;
    }

    // The last node's index.
    fn last(&self) -> u32
        ensures { result ≡ self.now.nodes - 1 }
    {
        self.nodes.saturating_sub(1)
    }

    // The nodes of the part c of node n.
    #[cycle(write_tree)]
    #[tactic(auto, using(crate::proofs::Laws::trees))]
    fn below(&mut self, n: u32, c: u32)
        ensures { Wrote (upto (λ w. w) (write_body self.old.memory.now.fixed self.old.memory.now.store.now self.old.at) n c) self.old self.new }
    {
        if let Some(c) = part(n, c) {
            self.tree(c);
        }
    }

    // The nodes of a number's tree, children first.
    #[cycle(write_tree)]
    #[tactic(auto, unfolding(crate::specs::Written::write_tree, eval_memory::specs::Fall::fall, crate::specs::Written::write_body, crate::specs::Written::write_negate, crate::specs::Written::write_infix))]
    fn tree(&mut self, n: u32)
        ensures { Wrote (write_tree self.old.memory.now.fixed self.old.memory.now.store.now self.old.at n) self.old self.new }
    {
        let kind = self.memory.kind(n);
        let a = self.memory.node_word(n, 1);
        match kind {
            Kind::Negate => {
                self.below(n, a);
                self.add(NEGATE, self.last(), 0, 0);
            }
            Kind::Infix => {
                let b = self.memory.node_word(n, 2);
                let op = self.memory.node_word(n, 3);
                self.below(n, a);
                let left = self.last();
                self.below(n, b);
                self.add(INFIX, left, self.last(), op);
            }
            _ => self.add(kind.into(), leaf_word(self.memory, n), 0, 0),
        }
    }

    // The definitions' nodes, and their ids, roots and places from word `list` on.
    #[tactic(auto, using(crate::proofs::Laws::lists), unfolding(crate::specs::Written::write_definition, eval_places::specs::Places::column_number))]
    pub fn definitions(&mut self, places: &Places, list: usize)
        requires { (list ≤ LAST-DEFINITIONS-AT) × (self.old.memory.now.state.definitions ≤ LISTED) }
        ensures { Wrote (write_definitions self.old.memory.now.fixed self.old.memory.now.store.now self.old.at self.old.memory.now.rows places.now.words list
            self.old.memory.now.state.definitions) self.old self.new }
    {
        let memory = self.memory;
        for d in 0..memory.state.definitions {
            self.tree(memory.row(Row::DefinedNode, d));
            let at = list + DEFINITION_WORDS * (d as usize);
            let root = self.last();
            let out = &mut *self.out;
            let emitter = places.place(Column::Definitions, d);
            put_definition(out, at, memory.row(Row::DefinedId, d), root, emitter);
        }
    }

    // The equations' nodes, and their roots and places from word `list` on.
    #[tactic(auto, using(crate::proofs::Laws::lists), // and an entry's place
    unfolding(crate::specs::Written::write_sides, crate::specs::Written::write_equation, eval_places::specs::Places::column_number))]
    pub fn equations(&mut self, places: &Places, list: usize)
        requires { (list ≤ LAST-EQUATIONS-AT) × (self.old.memory.now.state.equations ≤ LISTED) }
        ensures { Wrote (write_equations self.old.memory.now.fixed self.old.memory.now.store.now self.old.at self.old.memory.now.rows places.now.words list
            self.old.memory.now.state.equations) self.old self.new }
    {
        let memory = self.memory;
        for e in 0..memory.state.equations {
            self.tree(memory.row(Row::LeftSide, e));
            let left = self.last();
            self.tree(memory.row(Row::RightSide, e));
            let at = list + EQUATION_WORDS * (e as usize);
            let right = self.last();
            let out = &mut *self.out;
            let emitter = places.place(Column::Equations, e);
            put_equation(out, at, left, right, emitter);
        }
    }
}
