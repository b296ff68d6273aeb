// From a flat record to its constraint record: the four passes, and the refusals `FlatLength`, `FlatRule`, `Uncuttable`, `Ids` and `Output`.
#![tactic(auto)]

mod body;
mod built;
mod lists;

ghost use Rattle.std.specs.Prelude.{◌≡◌, ◌≤◌, length, replicate};
ghost use Rattle.flat.specs.Trees.{module_nodes};
ghost use Rattle.flat.specs.Record.{module_of};
ghost use Rattle.flat.specs.Readable.{Readable};
ghost use Rattle.pass_trees.specs.Passes.{cut_of};
ghost use Rattle.pass_entry.specs.Body.{Passed, body_after, list_after};
ghost use Rattle.pass_entry.specs.Cut.{cut_record, answer_for, output_for, need_of};
ghost use Rattle.records.specs.FlatRecord.{NODES};
ghost use Rattle.records.specs.Refusals.{numbered};

use body::run_passes;
use built::Built;
pub use lists::OUTPUT_BYTES;
use lists::{BODY_BYTES, LIST_BYTES};
use pass_classify::record::Record;
use pass_classify::{Classes, Usage, classify_defs};
use records::flat_record::ID_COUNT;
use records::refusals::Refusal;
use words::filled;

// What the constraint record of a flat record needs.
#[derive(Clone, Copy)]
pub struct Need {
    pub equalities: usize,
    pub bytes: usize,
}

// The lists that a constraint record is made in.
#[derive(Drop)]
struct Buffers {
    body: [u8; BODY_BYTES],
    list: [u8; LIST_BYTES],
}

impl Buffers {
    // The passes on a readable record, up to its output.
    fn pass(&mut self, s: &[u8]) -> Result<Built, Refusal>
        requires { Readable s.now × (module_nodes (module_of s.now) ≤ NODES) }
        ensures value { Passed (cut_of (module_of s.now)) result }
        ensures body_after { self.new.body ≡ body_after self.old.body (module_of s.now) }
        ensures list_after { self.new.list ≡ list_after self.old.list (module_of s.now) }
    {
        let record = Record::new(s);
        let mut usage = [Usage::Never; ID_COUNT];
        let mut provers = [false; ID_COUNT];
        classify_defs(&record, &mut usage, &mut provers);
        let classes = Classes {
            record,
            usage: &usage,
            provers: &provers,
        };
        run_passes(&classes, &mut self.body, &mut self.list)
    }
}

// The passes on a readable record, lent or made by evaluation. Not inlined: their arrays don't stand beside a caller's.
#[inline(never)]
pub fn passes(s: &[u8], out: &mut [u8]) -> Result<usize, Refusal>
    requires { Readable s.now × (module_nodes (module_of s.now) ≤ NODES) }
    ensures { (numbered result ≡ answer_for (length out.old) (cut_of (module_of s.now)))
        × (out.new ≡ output_for out.old (cut_of (module_of s.now))) }
{
    let mut buffers = Buffers {
        body: filled(0),
        list: filled(0),
    };
    let built = buffers.pass(s)?;
    built.deliver(&buffers.body, &buffers.list, out)
}

// What a lent flat record needs, or its refusal; nothing is written.
pub fn measure(s: &[u8]) -> Result<Need, Refusal>
    ensures { numbered result ≡ need_of (cut_record s.now) }
{
    flat::check_flat(s)?;
    let mut buffers = Buffers {
        body: filled(0),
        list: filled(0),
    };
    let built = buffers.pass(s)?;
    Ok(Need {
        equalities: built.equality_count(),
        bytes: built.bytes(),
    })
}

// A lent flat record: its constraint record at the front of the output, and how many bytes it has; or a refusal. The store is cleared.
pub fn cut(s: &[u8], store: &mut [u8], out: &mut [u8]) -> Result<usize, Refusal>
    ensures value { numbered result ≡ answer_for (length out.old) (cut_record s.now) }
    ensures out_after { out.new ≡ output_for out.old (cut_record s.now) }
    ensures store_after { store.new ≡ replicate (length store.old) 0 }
{
    words::clear(store);
    flat::check_flat(s)?;
    passes(s, out)
}
