// The equalities of a source record: the record on standard input or in the file that is named, the text of its equalities, or
// its refusal, on standard output, as program `equalities` writes them. A read or a write that fails is said on standard error.
#![tactic(auto)]

use answer_text::print_answer;
use flatten_entry::buffers::{output_buffer, record_buffer, store_buffer};
use std::io;
use std::rt::{Env, Files};
use streams::{Failed, open_input, read_opened};

fn flatten_record(rt: &(impl Print + Eprint), record: &[u8]) -> Result<usize, Failed> {
    let mut store = store_buffer();
    let mut out = output_buffer();
    let answer = flatten_entry::flatten(record, &mut store, &mut out).map_err(u32::from);
    print_answer(rt, &mut io::writer(rt), answer, &out)
}

// Kept as it is: `equalities` refuses a longer record itself; reading and printing are one function for both already.
fn run<R: Env + Files + Input + Print + Eprint>(rt: &R) -> Result<usize, Failed> {
    let opened = open_input(rt, "usage: flatten_equalities [FILE]\n")?;
    let mut record = record_buffer();
    let n = read_opened(rt, opened, &mut record)?;
    flatten_record(rt, &record[..n])
}

fn main(rt: HostRuntime) {
    let _ = run(&rt);
}
