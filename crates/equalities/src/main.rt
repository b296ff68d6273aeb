// The equalities of a flat record: the record on standard input or in the file that is named, the text of its equalities, or its
// refusal, on standard output. A read or a write that fails is said on standard error.
#![tactic(auto)]

use answer_text::print_answer;
use records::refusals::Refusal;
use std::io;
use std::rt::{Env, Files};
use streams::{Failed, open_input, read_opened};

// "The program lends 65,536 bytes each for record, store and output."
const LENT: usize = 65536;

fn cut_record(rt: &(impl Print + Eprint), record: &[u8]) -> Result<usize, Failed> {
    let mut store = [0u8; LENT];
    let mut out = [0u8; LENT];
    let answer = pass_entry::cut(record, &mut store, &mut out).map_err(u32::from);
    print_answer(rt, &mut io::writer(rt), answer, &out)
}

// A longer record is refused FlatLength.
fn refuse_longer(rt: &(impl Print + Eprint)) -> Result<usize, Failed> {
    print_answer(
        rt,
        &mut io::writer(rt),
        Err(Refusal::FlatLength.number()),
        &[],
    )
}

// Kept as it is: `flatten_equalities` refuses no length itself; reading and printing are one function for both already.
fn run<R: Env + Files + Input + Print + Eprint>(rt: &R) -> Result<usize, Failed> {
    let opened = open_input(rt, "usage: equalities [FILE]\n")?;
    // One byte more than is lent tells a longer record.
    let mut record = [0u8; LENT + 1];
    let n = read_opened(rt, opened, &mut record)?;
    if LENT < n {
        return refuse_longer(rt);
    }
    cut_record(rt, &record[..n])
}

fn main(rt: HostRuntime) {
    let _ = run(&rt);
}
