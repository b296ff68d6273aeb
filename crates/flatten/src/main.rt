// The constraint record of a source record: the record on standard input, its constraint record on standard output; at a
// refusal nothing there, and "refused" with the number on standard error. Arguments: how many bytes to lend as the store,
// and how many as the output. One that is missing, or more than can matter, counts as the most that can. A read or a write that
// fails is said on standard error.
#![tactic(auto)]

use answer_record::{lent_bytes, print_answer};
use flatten_entry::buffers::{STORE_BYTES, output_buffer, record_buffer, store_buffer};
use pass_entry::OUTPUT_BYTES;
use std::io;
use std::rt::Env;
use streams::{Failed, has_argument, read_standard};

// The program's own name counts as an argument.
const MOST_ARGUMENTS: usize = 3;

// The record that is read, with so many bytes of store and output.
fn flatten_input(
    rt: &(impl Input + Print + Eprint),
    store: &mut [u8],
    out: &mut [u8],
) -> Result<usize, Failed> {
    let mut record = record_buffer();
    let n = read_standard(rt, &mut record)?;
    let answer = flatten_entry::flatten(&record[..n], store, out).map_err(u32::from);
    print_answer(rt, &mut io::writer(rt), answer, out)
}

// Kept as it is: `cut_flat` lends an output alone, and each program has buffers of its own sizes: one function would be passed all that its body says.
fn run(rt: &(impl Input + Print + Eprint), held: usize, room: usize) -> Result<usize, Failed> {
    let mut store = store_buffer();
    let mut out = output_buffer();
    let bytes = held.min(STORE_BYTES);
    let most = room.min(OUTPUT_BYTES);
    flatten_input(rt, &mut store[..bytes], &mut out[..most])
}

// Kept as it is: `cut_flat` has one for one number; what both do alike is `has_argument` and `lent_bytes`, and any number of them would be a loop for a line.
// How many bytes of store and output the arguments say to lend; none, where one is no number or there are too many.
fn lent(rt: &impl Env) -> Option<(usize, usize)> {
    if has_argument(rt, MOST_ARGUMENTS) {
        return None;
    }
    Some((lent_bytes(rt, 1)?, lent_bytes(rt, 2)?))
}

fn main(rt: HostRuntime) {
    let Some((held, room)) = lent(&rt) else {
        let _ = rt.eprint("usage: flatten [STORE [OUTPUT]] < RECORD\n");
        return;
    };
    let _ = run(&rt, held, room);
}
