// The entries of a source record's lists, each by its place and its index.
ghost use Rattle.std.specs.Prelude.{◌≡◌, ◌+◌, ◌*◌, ◌≤◌, ◌<◌, length};
ghost use Rattle.source.specs.Layout.{name_entry, public_at, definition_entry, expression_root, NAME-WORDS, DEFINITION-WORDS};
ghost use Rattle.records.specs.SourceRecord.{HEADER};

use records::source_record::HEADER;
use words::{count, word_at};

// The words of a name and of a definition.
pub const NAME_WORDS: usize = 2;

pub const DEFINITION_WORDS: usize = 2;

// A name: where it starts in the name text, and its bytes.
#[derive(Clone, Copy)]
pub struct NameEntry {
    pub offset: usize,
    pub size: usize,
}

// A definition: the nodes of its pattern and of its value.
// Kept as it is: nodes as u32, here and in expression_at: evaluation takes words, and to narrow a usize there asks for its bound; to widen asks nothing.
#[derive(Clone, Copy)]
pub struct DefinitionEntry {
    pub pattern: u32,
    pub value: u32,
}

// Name k.
// Kept as it is: a form for this and definition_at is no plainer, since each names what its two words are.
pub fn name_at(s: &[u8], k: usize) -> NameEntry
    requires { 4 * (HEADER + NAME-WORDS * k + NAME-WORDS) ≤ length s.now }
    ensures value { result ≡ name_entry s.now k }
    ensures upper_bound { (result.offset < 4294967296) × (result.size < 4294967296) }
{
    let base = HEADER + NAME_WORDS * k;
    NameEntry {
        offset: count(s, base),
        size: count(s, base + 1),
    }
}

// The name of public k of those that start at word `at`.
// Kept as it is: this, expression_at and a flat record's prover_at read one word; each names the list that its contract speaks of.
pub fn public_at(s: &[u8], at: usize, k: usize) -> usize
    requires { 4 * (at + k + 1) ≤ length s.now }
    ensures value { result ≡ public_at s.now at k }
    ensures upper_bound { result < 4294967296 }
{
    count(s, at + k)
}

// Definition k of those that start at word `at`.
pub fn definition_at(s: &[u8], at: usize, k: usize) -> DefinitionEntry
    requires { 4 * (at + DEFINITION-WORDS * k + DEFINITION-WORDS) ≤ length s.now }
    ensures { result ≡ definition_entry s.now at k }
{
    let base = at + DEFINITION_WORDS * k;
    DefinitionEntry {
        pattern: word_at(s, base),
        value: word_at(s, base + 1),
    }
}

// The node of expression k of those that start at word `at`.
pub fn expression_at(s: &[u8], at: usize, k: usize) -> u32
    requires { 4 * (at + k + 1) ≤ length s.now }
    ensures { result ≡ expression_root s.now at k }
{
    word_at(s, at + k)
}
