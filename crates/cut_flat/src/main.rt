// The constraint record of a flat record: the flat record on standard input, its constraint record on standard output; at a refusal
// nothing there, and "refused" with the number on standard error. Argument: how many bytes to lend as the output. If it is missing, or
// more than a flat record can need, it counts as the most that one can. A read or a write that fails is said on standard error.
#![tactic(auto)]

use answer_record::{lent_bytes, print_answer};
use flat::entries::BYTES;
use pass_entry::OUTPUT_BYTES;
use std::io;
use std::rt::Env;
use streams::{Failed, has_argument, read_standard};

// One byte more than the longest record has: a longer input is refused FlatLength, as its first bytes are.
const RECORD_BYTES: usize = BYTES + 1;

// The program's own name counts as an argument.
const MOST_ARGUMENTS: usize = 2;

// Kept as it is: with `words::filled`, which was tried, a caller's proof computed the array place by place until the stack ended.
fn record_buffer() -> [u8; RECORD_BYTES] {
    [0u8; RECORD_BYTES]
}

fn output_buffer() -> [u8; OUTPUT_BYTES] {
    [0u8; OUTPUT_BYTES]
}

// The record that is read, with so many bytes of output. No store is needed.
fn cut_input(rt: &(impl Input + Print + Eprint), out: &mut [u8]) -> Result<usize, Failed> {
    let mut record = record_buffer();
    let n = read_standard(rt, &mut record)?;
    let answer = pass_entry::cut(&record[..n], &mut [], out).map_err(u32::from);
    print_answer(rt, &mut io::writer(rt), answer, out)
}

// Kept as it is: `flatten` lends a store too, and each program has buffers of its own sizes: one function would be passed all that its body says.
fn run(rt: &(impl Input + Print + Eprint), room: usize) -> Result<usize, Failed> {
    let mut out = output_buffer();
    let most = room.min(OUTPUT_BYTES);
    cut_input(rt, &mut out[..most])
}

// Kept as it is: `flatten` has one for two numbers; what both do alike is `has_argument` and `lent_bytes`, and any number of them would be a loop for a line.
// How many bytes of output the argument says to lend; none, where it is no number or there are more.
fn lent(rt: &impl Env) -> Option<usize> {
    if has_argument(rt, MOST_ARGUMENTS) {
        return None;
    }
    lent_bytes(rt, 1)
}

fn main(rt: HostRuntime) {
    let Some(room) = lent(&rt) else {
        let _ = rt.eprint("usage: cut_flat [OUTPUT] < RECORD\n");
        return;
    };
    let _ = run(&rt, room);
}
