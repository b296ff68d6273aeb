// The entries of a flat record's lists: read by the list's place and the entry's index, written by the entry's place. Places are counted in words.
ghost use Rattle.std.specs.Prelude.{◌≡◌, ◌+◌, ◌*◌, ◌≤◌, length};
ghost use Rattle.words.specs.Words.{set_words};
ghost use Rattle.flat.specs.Layout.{public_at, prover_at, definition_entry, equation_entry, DEFINITION-WORDS, EQUATION-WORDS};
ghost use Rattle.flat.specs.Layout.{header_words, definition_words, equation_words, node_words};
ghost use Rattle.records.specs.FlatRecord.{HEADER};
ghost use Rattle.records.specs.Kinds.{NODE-WORDS};

use records::NODE_WORDS;
use records::flat_record::{HEADER, LISTED, NODES, PUBLICS};
use records::nodes::NodeEntry;
use words::{count, put_words, word_at};

// The words of a definition and of an equation.
pub const DEFINITION_WORDS: usize = 3;

pub const EQUATION_WORDS: usize = 3;

// The longest record: the most of each list.
const MOST_DEFINITIONS: usize = DEFINITION_WORDS * LISTED;

const MOST_EQUATIONS: usize = EQUATION_WORDS * LISTED;

pub const BYTES: usize = 4
    * (HEADER + PUBLICS + LISTED + MOST_DEFINITIONS + MOST_EQUATIONS + NODE_WORDS * NODES);

// A definition: its id, the root of its right side, and the place of its statement.
#[derive(Clone, Copy)]
pub struct DefinitionEntry {
    pub id: u32,
    pub node: usize,
    pub place: u32,
}

// An equation: the roots of its sides, and the place of its statement.
#[derive(Clone, Copy)]
pub struct EquationEntry {
    pub left: usize,
    pub right: usize,
    pub place: u32,
}

// A header: the next id, the counts of publics and prover ids, of the two lists behind them, and of nodes.
#[derive(Clone, Copy)]
pub struct Header {
    pub next: u32,
    pub publics: u32,
    pub provers: u32,
    pub first: u32,
    pub second: u32,
    pub nodes: u32,
}

// Public id k.
pub fn public_at(s: &[u8], k: usize) -> u32
    requires { 4 * (HEADER + k + 1) ≤ length s.now }
    ensures { result ≡ public_at s.now k }
{
    word_at(s, HEADER + k)
}

// Prover id k of those that start at word `at`.
pub fn prover_at(s: &[u8], at: usize, k: usize) -> u32
    requires { 4 * (at + k + 1) ≤ length s.now }
    ensures { result ≡ prover_at s.now at k }
{
    word_at(s, at + k)
}

// Definition k of those that start at word `at`.
pub fn definition_at(s: &[u8], at: usize, k: usize) -> DefinitionEntry
    requires { 4 * (at + DEFINITION-WORDS * k + DEFINITION-WORDS) ≤ length s.now }
    ensures { result ≡ definition_entry s.now at k }
{
    let base = at + DEFINITION_WORDS * k;
    DefinitionEntry {
        id: word_at(s, base),
        node: count(s, base + 1),
        place: word_at(s, base + 2),
    }
}

// Equation k of those that start at word `at`.
pub fn equation_at(s: &[u8], at: usize, k: usize) -> EquationEntry
    requires { 4 * (at + EQUATION-WORDS * k + EQUATION-WORDS) ≤ length s.now }
    ensures { result ≡ equation_entry s.now at k }
{
    let base = at + EQUATION_WORDS * k;
    EquationEntry {
        left: count(s, base),
        right: count(s, base + 1),
        place: word_at(s, base + 2),
    }
}

// The header.
#[tactic(auto, unfolding(crate::specs::Layout::header_words))]
pub fn put_header(out: &mut [u8], header: Header)
    requires { 4 * HEADER ≤ length out.old }
    ensures { out.new ≡ set_words out.old 0 (header_words header.next header.publics header.provers header.first header.second header.nodes) }
{
    let Header {
        next,
        publics,
        provers,
        first,
        second,
        nodes,
    } = header;
    put_words(out, 0, [next, publics, provers, first, second, nodes]);
}

// A definition at word `at`: its id, its root and its place.
// Kept as it is: three words, and no DefinitionEntry, whose node is an index of any size; it would have to be below 4294967296 then.
#[tactic(auto, unfolding(crate::specs::Layout::definition_words))]
pub fn put_definition(out: &mut [u8], at: usize, id: u32, node: u32, place: u32)
    requires { 4 * (at + DEFINITION-WORDS) ≤ length out.old }
    ensures { out.new ≡ set_words out.old at (definition_words id node place) }
{
    put_words(out, at, [id, node, place]);
}

// An equation at word `at`: the roots of its sides, and its place.
// Kept as it is: a form for this and put_definition is no plainer, since each names what its three words are; both are calls of put_words.
#[tactic(auto, unfolding(crate::specs::Layout::equation_words))]
pub fn put_equation(out: &mut [u8], at: usize, left: u32, right: u32, place: u32)
    requires { 4 * (at + EQUATION-WORDS) ≤ length out.old }
    ensures { out.new ≡ set_words out.old at (equation_words left right place) }
{
    put_words(out, at, [left, right, place]);
}

// A node at word `at`.
#[tactic(auto, unfolding(crate::specs::Layout::node_words))]
pub fn put_node(out: &mut [u8], at: usize, node: NodeEntry)
    requires { 4 * (at + NODE-WORDS) ≤ length out.old }
    ensures { out.new ≡ set_words out.old at (node_words node.kind node.a node.b node.c) }
{
    let NodeEntry { kind, a, b, c } = node;
    put_words(out, at, [kind, a, b, c]);
}
