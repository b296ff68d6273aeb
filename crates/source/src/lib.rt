// The source record, read in place: its layout, the entries of its lists, and its nodes.
#![tactic(auto)]

mod entries;
pub mod lists;

ghost use Rattle.std.specs.Prelude.{◌≡◌, ◌+◌, ◌*◌, ◌≤◌, ◌<◌, length};
ghost use Rattle.source.specs.Layout.{layout_of};
ghost use Rattle.source.specs.Nodes.{entry_of};
ghost use Rattle.records.specs.Kinds.{NODE-WORDS};
ghost use Rattle.records.specs.SourceRecord.{HEADER};

use entries::entry;
use field::InfixOp;
use lists::{DEFINITION_WORDS, NAME_WORDS};
use records::NODE_WORDS;
use records::nodes::NodeEntry;
use records::source_record::{DEFINITIONS, EXPRESSIONS, HEADER, NAME_BYTES, NAMES, NODES, PUBLICS};
use words::count;

// The words of the longest record, and its bytes with the name text.
const WORDS: usize = HEADER
    + NAME_WORDS * NAMES
    + PUBLICS
    + DEFINITION_WORDS * DEFINITIONS
    + EXPRESSIONS
    + NODE_WORDS * NODES;

pub const BYTES: usize = 4 * WORDS + NAMES * NAME_BYTES;

// The counts of the header, the word at which each list starts (the names' pairs start at word 5), and the byte at which the name text starts.
// Kept as it is: one layout for this record and the flat one is no plainer, since its fields say other lists and their widths.
#[derive(Clone, Copy)]
pub struct Layout {
    pub names: usize,
    pub publics: usize,
    pub definitions: usize,
    pub expressions: usize,
    pub nodes: usize,
    pub publics_at: usize,
    pub definitions_at: usize,
    pub expressions_at: usize,
    pub nodes_at: usize,
    pub text_at: usize,
}

// An expression node: children and chains of links by their node indices, names by theirs.
#[derive(Clone, Copy)]
pub enum Form {
    Unit,
    Nil,
    Product(usize, usize),
    Cons(usize, usize),
    Infix(InfixOp, usize, usize),
    Negate(usize),
    Application(usize, usize),
    Constant(i64),
    Variable(usize),
    Function(usize, usize),
    Let(usize, usize, usize),
    Match(usize, usize),
    Sequence(usize),
}

// A pattern node.
#[derive(Clone, Copy)]
pub enum Shape {
    Unit,
    Nil,
    As(usize, usize),
    Product(usize, usize),
    Cons(usize, usize),
    Variable(usize),
    Constant(i64),
}

// A node: an expression, a pattern, or a link (item, next link, arm result).
#[derive(Clone, Copy)]
pub enum Node {
    Expression(Form),
    Pattern(Shape),
    Link(usize, usize, usize),
}

// Whose links a chain's are.
#[derive(Clone, Copy)]
pub enum Chain {
    Parameters,
    Arms,
    Items,
}

// The layout that the header says.
#[tactic(auto, unfolding(crate::specs::Layout::layout_of))]
pub fn layout_of(s: &[u8]) -> Layout
    requires { 4 * HEADER ≤ length s.now }
    ensures { result ≡ layout_of s.now }
{
    let names = count(s, 0);
    let publics = count(s, 1);
    let definitions = count(s, 2);
    let expressions = count(s, 3);
    let nodes = count(s, 4);
    let publics_at = HEADER + NAME_WORDS * names;
    let definitions_at = publics_at + publics;
    let expressions_at = definitions_at + DEFINITION_WORDS * definitions;
    let nodes_at = expressions_at + expressions;
    Layout {
        names,
        publics,
        definitions,
        expressions,
        nodes,
        publics_at,
        definitions_at,
        expressions_at,
        nodes_at,
        text_at: 4 * (nodes_at + NODE_WORDS * nodes),
    }
}

// Node k of the nodes that start at word `at`, if its words are those of one.
#[tactic(auto, unfolding(crate::specs::Nodes::entry_of))]
pub fn node_at(s: &[u8], at: usize, k: usize) -> Option<Node>
    requires { 4 * (at + NODE-WORDS * k + NODE-WORDS) ≤ length s.now }
    ensures { result ≡ entry_of s.now at k }
{
    entry(NodeEntry::read(s, at, k))
}
