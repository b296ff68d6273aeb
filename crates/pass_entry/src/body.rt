// A constraint record made in the port's own lists: its length is known only at the end, and a refused output stays untouched.
ghost use Rattle.std.specs.Prelude.{◌≡◌, ◌+◌, ◌-◌, ◌*◌, ◌/◌, ◌≤◌, length};
ghost use Rattle.flat.specs.Trees.{module_nodes};
ghost use Rattle.flat.specs.Record.{module_of};
ghost use Rattle.constraint.specs.Trees.{ConstraintModule};
ghost use Rattle.constraint.specs.Record.{EQUALITY-WORDS};
ghost use Rattle.pass_trees.specs.Passes.{passes, cut_of};
ghost use Rattle.pass_trees.specs.Passes.{cut as accepted};
ghost use Rattle.pass_entry.specs.Body.{BuiltOf, Made, put_body, put_list, Passed, body_after, list_after};
ghost use Rattle.pass_entry.specs.Sizes.{BODY-BYTES, LIST-BYTES};
ghost use Rattle.pass_entry.specs.Cut.{answer_for, output_for};
ghost use Rattle.records.specs.FlatRecord.{NODES};
ghost use Rattle.records.specs.Refusals.{numbered};

use super::built::Built;
use super::lists::{copy_to, put_provers, put_publics};
use constraint::{EQUALITY_WORDS, HEADER_BYTES, KEPT_WORDS};
use flat::entries::{Header, put_header};
use pass_3ac::Writer;
use pass_classify::{Classes, cuttable};
use pass_copies::{Substitutions, used_definitions};
use records::NODE_WORDS;
use records::flat_record::IDS;
use records::refusals::Refusal;

const NODE_BYTES: usize = 4 * NODE_WORDS;

impl Built {
    // The bytes of the record.
    pub fn bytes(self) -> usize
        ensures { result ≡ 24 + 4 * self.kept + 16 * self.nodes }
    {
        HEADER_BYTES + 4 * self.kept + NODE_BYTES * self.nodes
    }

    // Its equalities.
    pub fn equality_count(self) -> usize
        ensures { result ≡ (self.equalities - self.start) / EQUALITY-WORDS }
    {
        (self.equalities - self.start) / EQUALITY_WORDS
    }

    // The record that was built, put into the output where it fits; answers how many bytes it has.
    pub fn deliver(self, body: &[u8], list: &[u8], out: &mut [u8]) -> Result<usize, Refusal>
        requires { (4 * self.kept ≤ length body.now) × (16 * self.nodes ≤ length list.now) }
        ensures { (c : ConstraintModule) → Made c self body.now list.now
            → (numbered result ≡ answer_for (length out.old) (accepted c)) × (out.new ≡ output_for out.old (accepted c)) }
    {
        let size = self.bytes();
        if out.len() < size {
            return Err(Refusal::Output);
        }
        // Kept as it is: `as`, since Rust has no `From` of a usize for u32, and `try_from` would have a case that cannot be.
        let header = Header {
            next: self.next,
            publics: self.publics as u32,
            provers: (self.start - self.publics) as u32,
            first: self.equality_count() as u32,
            second: ((self.kept - self.equalities) / KEPT_WORDS) as u32,
            nodes: self.nodes as u32,
        };
        put_header(out, header);
        let bytes = 4 * self.kept;
        copy_to(body, bytes, out, HEADER_BYTES);
        copy_to(list, NODE_BYTES * self.nodes, out, HEADER_BYTES + bytes);
        Ok(size)
    }
}

// The passes' constraint module of a classified record, in the two lists. Not inlined: its substitutions stand in its own frame alone.
// Kept as it is: `few` is a clause: `Classes` has any readable record, and trees that share nodes have more in all than the record has.
#[inline(never)]
pub fn build(classes: &Classes, body: &mut [u8], list: &mut [u8]) -> Built
    requires few { module_nodes (module_of classes.now.record.bytes.now) ≤ NODES }
    requires body_len { (length body.old ≡ BODY-BYTES) × (length list.old ≡ LIST-BYTES) }
    ensures value { BuiltOf (passes (module_of classes.now.record.bytes.now)) result }
    ensures body_after { body.new ≡ put_body body.old (passes (module_of classes.now.record.bytes.now)) }
    ensures list_after { list.new ≡ put_list list.old (passes (module_of classes.now.record.bytes.now)) }
{
    let record = &classes.record;
    let layout = record.layout;
    put_publics(record, body);
    let start = put_provers(classes, body, layout.publics);
    let mut writer = Writer {
        body,
        next: layout.next as u32,
        at: start,
        place: 0,
    };
    let mut subs = Substitutions::new(used_definitions(record, classes.usage));
    writer.flatten_defs(classes, &mut subs);
    writer.flatten_equations(record, &subs);
    let Writer { body, next, at, .. } = writer;
    subs.clear();
    let mut keeper = pass_keep::Writer {
        body,
        at,
        list,
        nodes: 0,
    };
    keeper.keep_defs(classes, &mut subs);
    Built {
        next,
        publics: layout.publics,
        start,
        equalities: at,
        kept: keeper.at,
        nodes: keeper.nodes,
    }
}

// The passes on a classified record, up to its output: `Uncuttable` before anything is built, `Ids` once the next id is known.
pub fn run_passes(classes: &Classes, body: &mut [u8], list: &mut [u8]) -> Result<Built, Refusal>
    requires few { module_nodes (module_of classes.now.record.bytes.now) ≤ NODES }
    requires body_len { (length body.old ≡ BODY-BYTES) × (length list.old ≡ LIST-BYTES) }
    ensures value { Passed (cut_of (module_of classes.now.record.bytes.now)) result }
    ensures body_after { body.new ≡ body_after body.old (module_of classes.now.record.bytes.now) }
    ensures list_after { list.new ≡ list_after list.old (module_of classes.now.record.bytes.now) }
{
    if !cuttable(classes) {
        return Err(Refusal::Uncuttable);
    }
    let built = build(classes, body, list);
    if IDS < built.next {
        return Err(Refusal::Ids);
    }
    Ok(built)
}
