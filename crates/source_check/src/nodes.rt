// The nodes of a record, read by their indices.
ghost use Rattle.std.specs.Prelude.{◌≡◌, ◌+◌, ◌*◌, ◌≤◌, ◌<◌, length, IsSome};
ghost use Rattle.records.specs.Kinds.{NODE-WORDS};
ghost use Rattle.records.specs.SourceRecord.{NODES};
ghost use Rattle.source.specs.Nodes.{entry_of};

use source::{Node, node_at};

// The first nodes of a record with so many names: its bytes, and the word at which the nodes start.
#[derive(Clone, Copy)]
pub struct Nodes<'a> {
    pub bytes: &'a [u8],
    pub at: usize,
    pub count: usize,
    pub names: usize,
    ghost inside: { 4 * (at + NODE-WORDS * count) ≤ length bytes.now },
    ghost few: { count ≤ NODES },
}

impl Nodes<'_> {
    // Node k, if its words are those of one.
    pub fn entry(&self, k: usize) -> Option<Node>
        requires { k < self.now.count }
        ensures { result ≡ entry_of self.now.bytes.now self.now.at k }
    {
        node_at(self.bytes, self.at, k)
    }

    // Node k, which is one.
    pub fn node(&self, k: usize) -> Node
        requires below { k < self.now.count }
        requires read { IsSome (entry_of self.now.bytes.now self.now.at k) }
        ensures { Some result ≡ entry_of self.now.bytes.now self.now.at k }
    {
        self.entry(k).unwrap()
    }

    // The first k nodes.
    pub fn first(&self, k: usize) -> Self
        requires { k ≤ self.now.count }
        ensures same { (result.bytes.now ≡ self.now.bytes.now) × ((result.at ≡ self.now.at) × (result.names ≡ self.now.names)) }
        ensures count { result.count ≡ k }
    {
        Nodes {
            bytes: self.bytes,
            at: self.at,
            count: k,
            names: self.names,
        }
    }
}
