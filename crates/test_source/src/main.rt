// Replays damaged source records, made by tools/source_damage.py with the answers of its own checker. Standard input is six words at
// a time, the first of which is either 4,294,967,295, and then the next says how many bytes follow, the base of the cases to come; or
// the length of a case: so many bytes of the base, with two words of it written anew. A case's words: length, expected answer (the
// next id, or 4,294,901,760 and the number of a refusal), and twice the index of a word and the word that it becomes.
// A read or a write that fails is said on standard error.
#![tactic(auto)]

ghost use Rattle.std.specs.Prelude.{◌≤◌};

use std::rt::Env;
use streams::{Failed, open_standard};
use test_report::{Cases, Counts, Stop, read_rest, read_words, replay_all, said};
use words::put_word;

const BASE: u32 = 4294967295;

// The counts of cases: accepted, refused by 1 to 6, different.
const ACCEPTED: usize = 0;

const DIFFERENT: usize = 7;

const KINDS_OF_CASES: usize = 8;

const TEXT: &[u8] =
    b"# accepted; refused: # by 1, # by 2, # by 3, # by 4, # by 5, # by 6; # differ\n";

// Room for every record.
const RECORD: usize = 80000;

// Whether no entry is an id.
fn none_of(entries: &[u32]) -> bool {
    entries.iter().all(|id| *id == 0)
}

// The place in the counts of a case: a refused one has no id in either array.
fn judge(image: &[u8], answer: u32) -> usize {
    let expected = said(answer);
    let r = numbering::number_module_variables(image);
    let got = r.answer.map_err(|refusal| refusal.number());
    match got {
        Ok(_) if got == expected => ACCEPTED,
        Err(number) if got == expected && none_of(&r.ids) && none_of(&r.publics) => {
            (number as usize).min(DIFFERENT)
        }
        _ => DIFFERENT,
    }
}

// A word of a record becomes another; an index beyond the record says that none does.
#[derive(Clone, Copy)]
struct Damage {
    index: u32,
    word: u32,
}

fn write_anew(image: &mut [u8], damage: Damage) {
    let i = damage.index as usize;
    if i < image.len() / 4 {
        put_word(image, i, damage.word);
    }
}

// The base of the cases, and room for one that is damaged.
#[derive(Drop)]
struct Records {
    base: [u8; RECORD],
    image: [u8; RECORD],
}

impl Records {
    // A case: the first n bytes of the base, with two words of it written anew.
    fn judge_damaged(&mut self, n: usize, first: Damage, second: Damage, answer: u32) -> usize
        requires { n ≤ RECORD }
    {
        let base = &self.base[..n];
        let image = &mut self.image[..];
        image[..n].copy_from_slice(base);
        // A word that the case has a part of is written whole.
        write_anew(image, first);
        write_anew(image, second);
        judge(&image[..n], answer)
    }
}

impl Cases<KINDS_OF_CASES> for Records {
    // The next case or base of the input.
    fn replay<R: Input + Print + Eprint>(
        &mut self,
        rt: &R,
        part: u64,
        counts: &mut Counts<KINDS_OF_CASES>,
    ) -> Result<(), Stop> {
        let [length, answer, index, word, other_index, other_word] = read_words::<6>(rt)?;
        // Kept as it is: a word of the input says which of the two follows, and both need the same room; an enum would be made to be taken apart.
        let is_base = length == BASE;
        let n = if is_base { answer } else { length } as usize;
        if RECORD < n {
            return Err(Stop::Broken);
        }
        if is_base {
            return read_rest(rt, &mut self.base[..n]);
        }
        let first = Damage { index, word };
        let second = Damage {
            index: other_index,
            word: other_word,
        };
        let kind = self.judge_damaged(n, first, second, answer);
        counts.count_case(rt, kind, part)?;
        Ok(())
    }
}

fn run(rt: &(impl Env + Input + Print + Eprint)) -> Result<u64, Failed> {
    open_standard(rt, "usage: test_source < CASES\n")?;
    let mut records = Records {
        base: [0; RECORD],
        image: [0; RECORD],
    };
    replay_all(rt, &mut records, &mut Counts::new(DIFFERENT), TEXT)
}

fn main(rt: HostRuntime) {
    let _ = run(&rt);
}
