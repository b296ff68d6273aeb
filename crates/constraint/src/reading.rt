// A constraint record, read: its layout, and the entries of its lists, each by its place and its index. Public and prover ids, kept definitions and nodes
// stand as a flat record's do: `flat::entries::public_at`, `prover_at`, `definition_at`, `flat::node_at`.
ghost use Rattle.std.specs.Prelude.{◌≡◌, ◌+◌, ◌*◌, ◌≤◌, length};
ghost use Rattle.constraint.specs.Record.{EQUALITY-WORDS, TERM-WORDS};
ghost use Rattle.constraint.specs.Reading.{HEADER, layout_of, term_at, written_at, place_at};

use super::{EQUALITY_WORDS, Equality, HEADER, KEPT_WORDS, Operation, PLACE_WORD, Term};
use records::NODE_WORDS;
use words::{count, signed, word_at};

// The header's numbers, the word at which each list starts (the public ids start behind the header), and the record's words in all.
// Kept as it is: one layout for this record and the flat one is no plainer, since its fields say two other lists and their widths.
#[derive(Clone, Copy)]
pub struct Layout {
    pub next: usize,
    pub publics: usize,
    pub provers: usize,
    pub equalities: usize,
    pub kept: usize,
    pub nodes: usize,
    pub provers_at: usize,
    pub equalities_at: usize,
    pub kept_at: usize,
    pub nodes_at: usize,
    pub size: usize,
}

// The layout that the header says.
#[tactic(auto, unfolding(crate::specs::Reading::layout_of))]
pub fn layout_of(s: &[u8]) -> Layout
    requires { 4 * HEADER ≤ length s.now }
    ensures { result ≡ layout_of s.now }
{
    let publics = count(s, 1);
    let provers = count(s, 2);
    let equalities = count(s, 3);
    let kept = count(s, 4);
    let nodes = count(s, 5);
    let provers_at = HEADER + publics;
    let equalities_at = provers_at + provers;
    let kept_at = equalities_at + EQUALITY_WORDS * equalities;
    let nodes_at = kept_at + KEPT_WORDS * kept;
    Layout {
        next: count(s, 0),
        publics,
        provers,
        equalities,
        kept,
        nodes,
        provers_at,
        equalities_at,
        kept_at,
        nodes_at,
        size: nodes_at + NODE_WORDS * nodes,
    }
}

// The term at word i: 0 and an id, or a number; what is not 0 reads as 1.
#[tactic(auto, unfolding(crate::specs::Reading::term_at, flat::specs::Record::pick))]
fn term_at(s: &[u8], i: usize) -> Term
    requires { 4 * (i + TERM-WORDS) ≤ length s.now }
    ensures { result ≡ term_at s.now i }
{
    let word = word_at(s, i + 1);
    match word_at(s, i) {
        0 => Term::Variable(word),
        _ => Term::Constant(signed(word)),
    }
}

// Equality k of those that start at word `at`, without its place: negate and copy leave the second term out.
pub fn equality_at(s: &[u8], at: usize, k: usize) -> Equality
    requires { 4 * (at + EQUALITY-WORDS * k + EQUALITY-WORDS) ≤ length s.now }
    ensures { result ≡ written_at s.now at k }
{
    let base = at + EQUALITY_WORDS * k;
    let operation = Operation::from(word_at(s, base + 2));
    let second = match operation {
        Operation::Infix(_) => term_at(s, base + 5),
        Operation::Negate | Operation::Copy => Term::Variable(0),
    };
    Equality {
        left: term_at(s, base),
        operation,
        first: term_at(s, base + 3),
        second,
    }
}

// The place of equality k of those that start at word `at`.
pub fn place_at(s: &[u8], at: usize, k: usize) -> u32
    requires { 4 * (at + EQUALITY-WORDS * k + EQUALITY-WORDS) ≤ length s.now }
    ensures { result ≡ place_at s.now at k }
{
    word_at(s, at + EQUALITY_WORDS * k + PLACE_WORD)
}
