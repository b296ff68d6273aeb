// From a source record to its constraint record: numbering, evaluation and the four passes.
#![tactic(auto)]

pub mod buffers;

ghost use Rattle.std.specs.Prelude.{◌≡◌, length, replicate};
ghost use Rattle.pass_entry.specs.Cut.{answer_for, output_for};
ghost use Rattle.flatten_entry.specs.Flatten.{flattened};
ghost use Rattle.records.specs.Refusals.{numbered};

use eval_entry::evaluate_source;
use pass_entry::passes;
use records::refusals::Refusal;

// Any bytes, with any store and any output: the constraint record at the front of the output, or a refusal. The store is
// zero at the end.
pub fn flatten(s: &[u8], store: &mut [u8], out: &mut [u8]) -> Result<usize, Refusal>
    ensures value { numbered result ≡ answer_for (length out.old) (flattened s.now (length store.old)) }
    ensures out_after { out.new ≡ output_for out.old (flattened s.now (length store.old)) }
    ensures store_after { store.new ≡ replicate (length store.old) 0 }
{
    let flat = evaluate_source(s, store);
    let record = flat.record()?;
    passes(record, out)
}
