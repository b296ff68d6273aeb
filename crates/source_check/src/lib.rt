// The check of a source record: accepted, or the first of the refusals from `Length` to `Uses`.
#![tactic(auto)]

mod fingerprints;
pub mod names;
mod naming;
pub mod nodes;
mod reading;

ghost use Rattle.std.specs.Prelude.{◌≡◌, ◌&&◌, ◌||◌, leb, ltb, eqb};
ghost use Rattle.records.specs.SourceRecord.{DEFINITIONS, EXPRESSIONS, NAMES, NODES, PUBLICS};
ghost use Rattle.source.specs.Record.{source_of};
ghost use Rattle.source_check.specs.Answer.{checked};

use names::Names;
use naming::names_fit;
use reading::read_trees;
use records::refusals::Refusal;
use records::source_record::{DEFINITIONS, EXPRESSIONS, HEADER_BYTES, NAMES, NODES, PUBLICS};
use source::{Layout, layout_of};

// Whether no count is over its limit, so that the record is not refused by `Count`.
fn has_few(l: &Layout) -> bool
    ensures { result ≡ leb l.now.names NAMES && (leb l.now.publics PUBLICS
        && (leb l.now.definitions DEFINITIONS && (leb l.now.expressions EXPRESSIONS && leb l.now.nodes NODES))) }
{
    l.names <= NAMES
        && l.publics <= PUBLICS
        && l.definitions <= DEFINITIONS
        && l.expressions <= EXPRESSIONS
        && l.nodes <= NODES
}

// Whether so many bytes hold the lists, and no text without names: after a whole header, not refused by `Length`.
fn is_whole(l: &Layout, size: usize) -> bool
    ensures { result ≡ leb l.now.text_at size && (ltb 0 l.now.names || eqb size l.now.text_at) }
{
    l.text_at <= size && (0 < l.names || size == l.text_at)
}

// A source record: accepted, or refused with the first of the refusals from `Length` to `Uses`.
pub fn check_source(s: &[u8]) -> Result<(), Refusal>
    ensures { result ≡ checked (source_of s.now) }
{
    let size = s.len();
    if size < HEADER_BYTES {
        return Err(Refusal::Length);
    }
    let l = layout_of(s);
    if !has_few(&l) {
        return Err(Refusal::Count);
    }
    if !is_whole(&l, size) {
        return Err(Refusal::Length);
    }
    if !names_fit(s, l.text_at, l.names) {
        return Err(Refusal::Name);
    }
    // Kept as it is: a literal here and in numbering, no `new`: its ghost fields follow from the tests above, and there from what a module has.
    let names = Names {
        bytes: s,
        text: l.text_at,
        count: l.names,
    };
    if !names.differ() {
        return Err(Refusal::EqualNames);
    }
    read_trees(s, l)
}
