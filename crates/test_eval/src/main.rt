// Replays cases of evaluation: source records with the answers of the Rust, made by tools/evaluation_cases.py. Standard input is groups
// (test_report/src/groups.rt), in which the record is a source record and a flat record is expected of it. Two words for each run: the
// length of the store to lend and the expected answer. A read or a write that fails is said on standard error.
#![tactic(auto)]

use eval_memory::{MOST_UNITS, UNIT_BYTES};
use eval_write::FLAT_BYTES;
use source::BYTES;
use std::rt::Env;
use streams::{Failed, open_standard};
use test_report::{CASES_TEXT, Counts, Groups, RUNS, Runs, Seen, replay_all};

// Words of a run.
const RUN: usize = 2;

// Room for a store that is longer than can matter.
const STORE: usize = MOST_UNITS as usize * UNIT_BYTES + 32;

// What stands in the store before a run.
// Kept as it is: each program fills what it lends with a byte of its own choice, and no test needs them to be alike.
const UNCLEARED: u8 = 90;

// What is lent to a run.
#[derive(Drop)]
struct Lent {
    store: [u8; STORE],
}

impl Runs<RUN> for Lent {
    // A run with the front of the store. An accepted one gives the expected record.
    fn replay_run(&mut self, record: &[u8], expected: &[u8], run: [u32; RUN]) -> Option<Seen> {
        let [length, _wanted] = run;
        let store = self.store.get_mut(..length as usize)?;
        store.fill(UNCLEARED);
        let r = eval_entry::evaluate_source(record, store);
        let same = match r.answer {
            Ok(n) => n == expected.len() && r.bytes.starts_with(expected),
            Err(_) => true,
        };
        let cleared = store.iter().all(|b| *b == 0);
        Some(Seen {
            answer: r.answer.map(|_| ()).map_err(|refusal| refusal.number()),
            right: same && cleared,
        })
    }
}

fn run(rt: &(impl Env + Input + Print + Eprint)) -> Result<u64, Failed> {
    open_standard(rt, "usage: test_eval < CASES\n")?;
    let mut groups = Groups {
        record: [0; BYTES],
        expected: [0; FLAT_BYTES],
        runs: [[0; RUN]; RUNS],
        lent: Lent { store: [0; STORE] },
    };
    replay_all(rt, &mut groups, &mut Counts::of_verdicts(), CASES_TEXT)
}

fn main(rt: HostRuntime) {
    let _ = run(&rt);
}
