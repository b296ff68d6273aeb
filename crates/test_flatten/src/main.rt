// Replays cases of flattening: source records with the answers of the Rust, made by tools/flatten_cases.py. Standard input is groups
// (test_report/src/groups.rt), in which the record is a source record and a constraint record is expected of it. Three words for each
// run: the lengths of the store and of the output to lend and the expected answer. A read or a write that fails is said on standard
// error.
#![tactic(auto)]

use eval_memory::{MOST_UNITS, UNIT_BYTES};
use source::BYTES;
use std::rt::Env;
use streams::{Failed, open_standard};
use test_report::{CASES_TEXT, Counts, Groups, RUNS, Runs, Seen, replay_all};

// Words of a run.
const RUN: usize = 3;

// Room for a store that is longer than can matter, and for every output.
const STORE: usize = MOST_UNITS as usize * UNIT_BYTES + 32;

const OUTPUT: usize = 480000;

// What stands in the store and in the output before a run.
// Kept as it is: each program fills what it lends with a byte of its own choice, and no test needs them to be alike.
const UNCLEARED: u8 = 90;

const UNWRITTEN: u8 = 165;

// What is lent to a run.
#[derive(Drop)]
struct Lent {
    store: [u8; STORE],
    out: [u8; OUTPUT],
}

impl Runs<RUN> for Lent {
    // A run with the fronts of the store and of the output. An accepted one gives the expected record; what stands behind it, and all of
    // the output of a refused one, is left.
    fn replay_run(&mut self, record: &[u8], expected: &[u8], run: [u32; RUN]) -> Option<Seen> {
        let [length, room, _wanted] = run;
        let store = self.store.get_mut(..length as usize)?;
        let out = self.out.get_mut(..room as usize)?;
        store.fill(UNCLEARED);
        out.fill(UNWRITTEN);
        let answer = flatten_entry::flatten(record, store, out);
        let same = match answer {
            Ok(n) => n == expected.len() && out.starts_with(expected),
            Err(_) => true,
        };
        let written = answer.unwrap_or(0);
        let untouched = out.iter().skip(written).all(|b| *b == UNWRITTEN);
        let cleared = store.iter().all(|b| *b == 0);
        Some(Seen {
            answer: answer.map(|_| ()).map_err(|refusal| refusal.number()),
            right: same && untouched && cleared,
        })
    }
}

fn run(rt: &(impl Env + Input + Print + Eprint)) -> Result<u64, Failed> {
    open_standard(rt, "usage: test_flatten < CASES\n")?;
    let mut groups = Groups {
        record: [0; BYTES],
        expected: [0; OUTPUT],
        runs: [[0; RUN]; RUNS],
        lent: Lent {
            store: [0; STORE],
            out: [0; OUTPUT],
        },
    };
    replay_all(rt, &mut groups, &mut Counts::of_verdicts(), CASES_TEXT)
}

fn main(rt: HostRuntime) {
    let _ = run(&rt);
}
