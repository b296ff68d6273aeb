// Replays cases of numbering: source records with the ids that the Rust gives, made by tools/number_cases.py. A case on standard
// input: the words record length, expected answer (the next id, or 4,294,901,760 and the number of a refusal), counts of ids and
// of publics, the record, and the expected entries of both arrays. A read or a write that fails is said on standard error.
#![tactic(auto)]

use std::rt::Env;
use streams::{Failed, open_standard};
use test_report::{
    CASES_TEXT, Cases, Counts, KINDS_OF_CASES, Stop, Verdict, read_rest, read_words, replay_all,
    said,
};
use words::word_at;

// Room for every record and its entries.
const RECORD: usize = 80000;

const ENTRIES: usize = 8448;

// What stands in the arrays where there is no id.
const UNWRITTEN: u32 = 0;

// Whether the first entries are these words, and the others unwritten.
fn entries_are(entries: &[u32], words: &[u8]) -> bool {
    let n = words.len() / 4;
    entries.iter().enumerate().all(|(i, entry)| {
        let expected = if i < n { word_at(words, i) } else { UNWRITTEN };
        *entry == expected
    })
}

// A record with its ids and publics.
fn judge(image: &[u8], answer: u32, ids: &[u8], publics: &[u8]) -> Verdict {
    let expected = said(answer);
    let r = numbering::number_module_variables(image);
    let got = r.answer.map_err(|refusal| refusal.number());
    let same = entries_are(&r.ids, ids) && entries_are(&r.publics, publics);
    Verdict::of(got == expected && same, expected.is_ok())
}

// Room for a case: its record, and the words of both arrays.
#[derive(Drop)]
struct Room {
    image: [u8; RECORD],
    entries: [u8; ENTRIES],
}

impl Cases<KINDS_OF_CASES> for Room {
    fn replay<R: Input + Print + Eprint>(
        &mut self,
        rt: &R,
        part: u64,
        counts: &mut Counts<KINDS_OF_CASES>,
    ) -> Result<(), Stop> {
        let [length, answer, ids, publics] = read_words::<4>(rt)?;
        // Bytes of the ids, and of both arrays.
        let middle = 4 * ids as usize;
        let size = middle + 4 * publics as usize;
        let image = self.image.get_mut(..length as usize).ok_or(Stop::Broken)?;
        let entries = self.entries.get_mut(..size).ok_or(Stop::Broken)?;
        read_rest(rt, image)?;
        read_rest(rt, entries)?;
        let entries = &entries[..];
        let verdict = judge(image, answer, &entries[..middle], &entries[middle..]);
        counts.count_case(rt, verdict as usize, part)?;
        Ok(())
    }
}

fn run(rt: &(impl Env + Input + Print + Eprint)) -> Result<u64, Failed> {
    open_standard(rt, "usage: test_numbering < CASES\n")?;
    let mut room = Room {
        image: [0; RECORD],
        entries: [0; ENTRIES],
    };
    replay_all(rt, &mut room, &mut Counts::of_verdicts(), CASES_TEXT)
}

fn main(rt: HostRuntime) {
    let _ = run(&rt);
}
