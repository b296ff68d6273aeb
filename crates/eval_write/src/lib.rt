// The flat record, written from the evaluator's memory.
#![tactic(auto)]

mod writer;

ghost use Rattle.std.specs.Prelude.{◌≡◌, ◌+◌, ◌*◌, ◌≤◌, ◌<◌, length};
ghost use Rattle.words.specs.Words.{set_words};
ghost use Rattle.flat.specs.Layout.{LAST-PROVERS-AT, WORDS};
ghost use Rattle.eval_write.specs.Written.{firsts, if_marked, marked, nodes_from, write_flat};
ghost use Rattle.records.specs.FlatRecord.{HEADER, IDS, LISTED, PUBLICS};
ghost use Rattle.records.specs.Kinds.{NODE-WORDS};

use eval_memory::Memory;
use eval_places::Places;
use flat::Layout;
use flat::entries::{BYTES, Header, put_header};
use records::NODE_WORDS;
use records::flat_record::{HEADER, IDS};
use words::put_word;
use writer::Writer;

// The longest flat record.
pub const FLAT_BYTES: usize = BYTES;

pub type FlatBytes = [u8; FLAT_BYTES];

// The public ids.
fn write_publics(out: &mut FlatBytes, publics: &[u32])
    requires { length publics.now ≤ PUBLICS }
    ensures { out.new ≡ set_words out.old HEADER (firsts publics.now (length publics.now)) }
{
    for (i, id) in publics.iter().enumerate() {
        put_word(out, HEADER + i, *id);
    }
}

// Id i, where it has a mark: the word behind it.
fn write_prover(out: &mut FlatBytes, memory: &Memory, to: usize, i: u32) -> usize
    requires { to < WORDS }
    ensures { (out.new ≡ set_words out.old to (if_marked memory.now.marks i))
        × ((result ≡ to + length (if_marked memory.now.marks i)) × (result ≤ to + 1)) }
{
    if memory.is_prover(i) {
        put_word(out, to, i);
        return to + 1;
    }
    to
}

// The ids with a mark, from word `at` on.
// Kept as it is: one function of a test, for this and put_provers of pass_entry, asks a law of the test and a third definition beside `marked`, `ids_from`.
fn write_provers(out: &mut FlatBytes, memory: &Memory, at: usize)
    requires { at ≤ LAST-PROVERS-AT }
    ensures { out.new ≡ set_words out.old at (marked memory.now.marks IDS) }
{
    let mut to = at;
    for i in 0..IDS {
        to = write_prover(out, memory, to, i);
    }
}

// The whole record: how many bytes it has.
#[tactic(auto, unfolding(crate::specs::Written::write_flat, crate::specs::Written::write_ids, flat::specs::Layout::layout_by))]
pub fn write_flat(memory: &Memory, places: &Places, publics: &[u32], out: &mut FlatBytes) -> usize
    requires { ((length publics.now ≤ PUBLICS) × (memory.now.state.provers ≤ LISTED))
        × ((memory.now.state.definitions ≤ LISTED) × (memory.now.state.equations ≤ LISTED)) }
    ensures { (out.new ≡ (write_flat memory.now.fixed memory.now.store.now
        memory.now.rows memory.now.marks places.now.words memory.now.state publics.now (length publics.now) out.old).bytes)
        × (result ≡ 4 * (nodes_from memory.now.state (length publics.now) + NODE-WORDS
        * (write_flat memory.now.fixed memory.now.store.now memory.now.rows memory.now.marks places.now.words memory.now.state
        publics.now (length publics.now) out.old).nodes)) }
{
    let s = memory.state;
    let header = Header {
        next: s.next,
        publics: publics.len() as u32,
        provers: s.provers,
        first: s.definitions,
        second: s.equations,
        nodes: s.nodes,
    };
    let layout = Layout::from(header);
    put_header(out, header);
    write_publics(out, publics);
    write_provers(out, memory, layout.provers_at);
    let mut writer = Writer {
        memory,
        out,
        at: layout.nodes_at,
        nodes: 0,
    };
    writer.definitions(places, layout.definitions_at);
    writer.equations(places, layout.equations_at);
    4 * (layout.nodes_at + NODE_WORDS * (writer.nodes as usize))
}
