// The lists that the body takes over as they are, and copies of bytes.
ghost use Rattle.std.specs.Prelude.{◌≡◌, ◌+◌, ◌*◌, ◌≤◌, length};
ghost use Rattle.std.proofs.Math.Seq.{paste};
ghost use Rattle.words.specs.Words.{set_words, word_at};
ghost use Rattle.flat.specs.Layout.{next, publics};
ghost use Rattle.flat.specs.Record.{module_of, rows};
ghost use Rattle.pass_trees.specs.Passes.{ids_from};
ghost use Rattle.pass_classify.specs.Arrays.{marked};

use constraint::{EQUALITY_WORDS, HEADER, KEPT_WORDS};
use pass_classify::Classes;
use pass_classify::record::Record;
use records::NODE_WORDS;
use records::flat_record::{ID_COUNT, LISTED, NODES, PUBLICS};
use words::put_word;

// The most that a flat record can give: publics, prover ids, an equality for each node, kept definitions; and the nodes of these.
pub const BODY_BYTES: usize = 4
    * (PUBLICS + ID_COUNT + EQUALITY_WORDS * NODES + KEPT_WORDS * LISTED);

pub const LIST_BYTES: usize = 4 * NODE_WORDS * NODES;

// No constraint record of a flat record is longer: a node gives an equality, or it is kept with its definition, in fewer words.
pub const OUTPUT_BYTES: usize = 4 * (HEADER + PUBLICS + ID_COUNT + EQUALITY_WORDS * NODES);

// The n words of a record from word `at` on, at the front of the body.
fn copy_words(s: &[u8], at: usize, n: usize, body: &mut [u8])
    requires { (4 * (at + n) ≤ length s.now) × (4 * n ≤ length body.old) }
    ensures { body.new ≡ set_words body.old 0 (rows n 0 (λ k. word_at s.now (at + k))) }
{
    copy_to(&s[4 * at..], 4 * n, body, 0);
}

// The public ids of the record, at the front of the body.
pub fn put_publics(record: &Record, body: &mut [u8])
    requires { 4 * publics record.now.bytes.now ≤ length body.old }
    ensures { body.new ≡ set_words body.old 0 (module_of record.now.bytes.now).publics }
{
    copy_words(record.bytes, HEADER, record.layout.publics, body);
}

// The marked ids below the next id, from word `at` of the body on; answers the word after them.
// Kept as it is: one function of a test, for this and write_provers of eval_write, asks a law of the test and a third definition beside `ids_from`, `marked`.
pub fn put_provers(classes: &Classes, body: &mut [u8], at: usize) -> usize
    requires { 4 * (at + next classes.now.record.bytes.now) ≤ length body.old }
    ensures { (body.new ≡ set_words body.old at (ids_from (marked classes.now.provers.now) 0 (next classes.now.record.bytes.now)))
        × (result ≡ at + length (ids_from (marked classes.now.provers.now) 0 (next classes.now.record.bytes.now))) }
{
    let mut to = at;
    for v in 0..classes.record.layout.next {
        if classes.is_prover(v) {
            put_word(body, to, v as u32);
            to += 1;
        }
    }
    to
}

// The first n bytes of one slice, in the other from byte `to` on.
// Kept as it is: one call of std, whose promise is said once here, by `paste`, for both calls.
pub fn copy_to(from: &[u8], n: usize, out: &mut [u8], to: usize)
    requires { (n ≤ length from.now) × (to + n ≤ length out.old) }
    ensures { out.new ≡ paste out.old to from.now n }
{
    out[to..to + n].copy_from_slice(&from[..n]);
}
