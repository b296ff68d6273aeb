// Groups of runs on standard input. A group: the words record length, number of runs and length of the expected record; the words of each
// run, the last of which is the answer that is wanted, 0 for accepted, else the number of the refusal; the record; the expected record.
use crate::{Cases, Counts, KINDS_OF_CASES, Stop, read_rest, read_words};

// How many runs a group has at most.
pub const RUNS: usize = 8;

// What is told of a run that lends more than fits here.
const NO_ROOM: u32 = 4294967295;

// What is seen of a run.
#[derive(Clone, Copy)]
pub struct Seen {
    // Accepted, or the number of the refusal.
    pub answer: Result<(), u32>,
    // Whether what it leaves is right for that answer.
    pub right: bool,
}

// How a run of a group goes, with what is lent to it.
pub trait Runs<const WORDS: usize> {
    // A run by its words; none, where more is to be lent than fits here.
    fn replay_run(&mut self, record: &[u8], expected: &[u8], run: [u32; WORDS]) -> Option<Seen>;
}

// Room for a group, and what is lent to its runs.
#[derive(Drop)]
pub struct Groups<L, const WORDS: usize, const RECORD: usize, const EXPECTED: usize> {
    pub record: [u8; RECORD],
    pub expected: [u8; EXPECTED],
    pub runs: [[u32; WORDS]; RUNS],
    pub lent: L,
}

// The words of each run: the input must not end in front of them.
fn read_runs<const WORDS: usize>(
    rt: &(impl Input + Eprint),
    runs: &mut [[u32; WORDS]],
) -> Result<(), Stop> {
    for run in runs {
        *run = match read_words(rt) {
            Err(Stop::End) => return Err(Stop::Broken),
            other => other?,
        };
    }
    Ok(())
}

// The answer that is wanted of a run: accepted, or the number of a refusal.
fn wanted_of(run: &[u32]) -> Result<(), u32> {
    match run.last() {
        None | Some(0) => Ok(()),
        Some(number) => Err(*number),
    }
}

// Whether a run came to what is wanted, or else what is told of it: 0 where it was accepted, the number of its refusal, or that it had no room.
fn judged(seen: Option<Seen>, wanted: Result<(), u32>) -> Result<(), u32> {
    let seen = seen.ok_or(NO_ROOM)?;
    if seen.right && seen.answer == wanted {
        return Ok(());
    }
    Err(seen.answer.err().unwrap_or(0))
}

impl<L: Runs<WORDS>, const WORDS: usize, const RECORD: usize, const EXPECTED: usize> Cases<
    KINDS_OF_CASES,
> for Groups<L, WORDS, RECORD, EXPECTED> {
    // The next group of the input.
    fn replay<R: Input + Print + Eprint>(
        &mut self,
        rt: &R,
        part: u64,
        counts: &mut Counts<KINDS_OF_CASES>,
    ) -> Result<(), Stop> {
        let [length, number, room] = read_words::<3>(rt)?;
        let runs = self.runs.get_mut(..number as usize).ok_or(Stop::Broken)?;
        let record = self.record.get_mut(..length as usize).ok_or(Stop::Broken)?;
        let expected = self.expected.get_mut(..room as usize).ok_or(Stop::Broken)?;
        read_runs(rt, runs)?;
        read_rest(rt, record)?;
        read_rest(rt, expected)?;
        for (run, words) in runs.iter().enumerate() {
            let wanted = wanted_of(words);
            let seen = self.lent.replay_run(record, expected, *words);
            counts.count_run(rt, judged(seen, wanted), wanted.is_ok(), part, run as u64)?;
        }
        Ok(())
    }
}
