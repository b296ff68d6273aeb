// A readable flat record with its layout: the entries of its lists, by their index.
ghost use Rattle.std.specs.Prelude.{◌≡◌, ◌<◌};
ghost use Rattle.flat.specs.Layout.{provers, definitions, equations, nodes, provers_offset, definitions_offset, equations_offset, nodes_offset};
ghost use Rattle.flat.specs.Layout.{layout_of, prover_at, definition_entry, equation_entry};
ghost use Rattle.flat.specs.Record.{node_of, grown};
ghost use Rattle.flat.specs.Readable.{Readable};
ghost use Rattle.std.specs.Coded.{Coded-set};
ghost use Rattle.pass_classify.specs.Readable.{Readable-prop, Below, tree_of};
ghost use Rattle.records.specs.FlatRecord.{IDS};

use flat::entries::{DefinitionEntry, EquationEntry, definition_at, equation_at, prover_at};
use flat::{Layout, Node};

// The bytes of a readable record, with the layout that its header says.
// Kept as it is: not flat's `Measured`: that a record is readable is more, and one that evaluation made is readable without being measured.
#[derive(Clone, Copy)]
pub struct Record<'a> {
    pub bytes: &'a [u8],
    pub layout: Layout,
    pub ghost readable: { Readable bytes.now } by { Readable-prop },
    pub ghost laid: { layout ≡ layout_of bytes.now } by { Coded-set layout-code _ _ },
}

// Kept as it is: entries by index, not iterators of them: what is left of a list is said by its index, in the definitions and in each loop's invariant.
impl<'a> Record<'a> {
    pub fn new(bytes: &'a [u8]) -> Record<'a>
        requires { Readable bytes.now }
        ensures { result.bytes.now ≡ bytes.now }
    {
        Record {
            bytes,
            layout: flat::layout_of(bytes),
        }
    }

    // Node k, whose children and ids lie within the record.
    pub fn node(&self, k: usize) -> Node
        requires { k < nodes self.now.bytes.now }
        ensures value { result ≡ node_of self.now.bytes.now (nodes_offset self.now.bytes.now) k }
        ensures within { Below k result }
        ensures tree { tree_of self.now.bytes.now k ≡ grown (tree_of self.now.bytes.now) result }
    {
        flat::node_at(self.bytes, self.layout.nodes_at, k)
    }

    // Prover id k.
    pub fn prover(&self, k: usize) -> u32
        requires { k < provers self.now.bytes.now }
        ensures value { result ≡ prover_at self.now.bytes.now (provers_offset self.now.bytes.now) k }
        ensures within { result < IDS }
    {
        prover_at(self.bytes, self.layout.provers_at, k)
    }

    // Definition k.
    pub fn definition(&self, k: usize) -> DefinitionEntry
        requires { k < definitions self.now.bytes.now }
        ensures value { result ≡ definition_entry self.now.bytes.now (definitions_offset self.now.bytes.now) k }
        ensures within { (result.id < IDS) × (result.node < nodes self.now.bytes.now) }
    {
        definition_at(self.bytes, self.layout.definitions_at, k)
    }

    // Equation k.
    pub fn equation(&self, k: usize) -> EquationEntry
        requires { k < equations self.now.bytes.now }
        ensures value { result ≡ equation_entry self.now.bytes.now (equations_offset self.now.bytes.now) k }
        ensures within { (result.left < nodes self.now.bytes.now) × (result.right < nodes self.now.bytes.now) }
    {
        equation_at(self.bytes, self.layout.equations_at, k)
    }
}
