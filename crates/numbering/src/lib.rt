// Variable numbering: names become ids.
#![tactic(auto)]

mod expressions;
mod listing;
mod patterns;
mod registering;
mod rows;

ghost use Rattle.std.specs.Prelude.{◌≡◌, length, Ok};
ghost use Rattle.source.specs.Readable.{Readable};
ghost use Rattle.source.specs.Record.{Read, source_of, module_of};
ghost use Rattle.numbering.specs.Outcome.{Outcome};
ghost use Rattle.numbering.specs.Walks.{no_entries, no_publics};
ghost use Rattle.records.specs.SourceRecord.{NODES, PUBLICS};

use records::refusals::Refusal;
use records::source_record::{NODES, PUBLICS};
use rows::Scopes;
use source::layout_of;
use source_check::check_source;
use source_check::names::Names;
use source_check::nodes::Nodes;

// The next free id, or the record's refusal; the id of every node that has a name at its index, that of every public at its position, 0 elsewhere.
// Kept as it is: a refused numbering leaves arrays of zeros, which two test programs look at; a Result of the arrays would promise less.
#[derive(Drop)]
pub struct Numbering {
    pub answer: Result<u32, Refusal>,
    pub ids: [u32; NODES],
    pub publics: [u32; PUBLICS],
}

// What the rows and the publics come to.
fn answered(scopes: &Scopes, publics: [u32; PUBLICS]) -> Numbering
    ensures parts { result ≡ record { answer = Ok scopes.now.next; ids = scopes.now.ids; publics = publics } }
    ensures long { (length result.ids ≡ NODES) × (length result.publics ≡ PUBLICS) }
{
    Numbering {
        answer: Ok(scopes.next),
        ids: scopes.ids,
        publics,
    }
}

// A record that is accepted.
fn number_checked(s: &[u8]) -> Numbering
    requires { (source_of s.now ≡ Read.module-of (module_of s.now)) × Readable s.now }
    ensures { Outcome s.now no_entries no_publics result.answer result.ids result.publics }
{
    let l = layout_of(s);
    let names = Names {
        bytes: s,
        text: l.text_at,
        count: l.names,
    };
    let nodes = Nodes {
        bytes: s,
        at: l.nodes_at,
        count: l.nodes,
        names: l.names,
    };
    let mut scopes = Scopes::new();
    scopes.register_intrinsics(&names);
    let publics = scopes.number_publics(&names, l.publics_at, l.publics);
    scopes.number_definitions(&nodes, l.definitions_at, l.definitions);
    scopes.number_expressions(&nodes, l.expressions_at, l.expressions);
    answered(&scopes, publics)
}

// Any bytes: refused as the record is, with arrays of zeros, or numbered.
pub fn number_module_variables(s: &[u8]) -> Numbering
    ensures { Outcome s.now no_entries no_publics result.answer result.ids result.publics }
{
    match check_source(s) {
        Ok(()) => number_checked(s),
        Err(refusal) => Numbering {
            answer: Err(refusal),
            ids: [0; NODES],
            publics: [0; PUBLICS],
        },
    }
}
