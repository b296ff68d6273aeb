// The places of the flat lists' entries, beside the evaluator's memory: which statement emitted each. No function of the evaluation knows them; they are
// noted behind each statement.
#![tactic(auto)]

ghost use Rattle.std.specs.Prelude.{◌≡◌, ◌+◌, ◌*◌, ◌-◌, ◌<◌};
ghost use Rattle.eval_places.specs.Places.{PLACE-COUNT, no_places, column_number, slot, place_at, put_place, filled, noted};

use eval_memory::State;
use records::flat_record::LISTED;

// A column for each list.
#[derive(Clone, Copy, Debug, PartialEq, Eq)]
pub enum Column {
    Definitions,
    Equations,
}

const PLACE_COUNT: usize = 2 * LISTED;

// Kept as it is: LISTED once more, as u32, since Rust has no constant of two types.
const LIST: u32 = LISTED as u32;

#[derive(Drop)]
pub struct Places {
    words: [u32; PLACE_COUNT],
}

impl Column {
    // Where entry i stands.
    #[tactic(auto, unfolding(crate::specs::Places::slot, crate::specs::Places::column_number))]
    fn slot(self, i: u32) -> usize
        ensures value { result ≡ slot (column_number self) i }
        ensures within { result < PLACE-COUNT }
    {
        let first = match self {
            Column::Definitions => 0,
            Column::Equations => LIST,
        };
        (first + i % LIST) as usize
    }
}

impl Places {
    #[tactic(auto, unfolding(crate::specs::Places::no_places))]
    pub fn new() -> Places
        ensures { result.words ≡ no_places }
    {
        Places {
            words: [0u32; PLACE_COUNT],
        }
    }

    // Entry i of a column.
    #[tactic(auto, unfolding(crate::specs::Places::place_at))]
    pub fn place(&self, k: Column, i: u32) -> u32
        ensures { result ≡ place_at self.now.words (column_number k) i }
    {
        self.words[k.slot(i)]
    }

    #[tactic(auto, unfolding(crate::specs::Places::put_place))]
    fn put(&mut self, k: Column, i: u32, x: u32)
        ensures { self.new.words ≡ put_place self.old.words (column_number k) i x }
    {
        self.words[k.slot(i)] = x;
    }

    // The entries of a column from one index up to another have the place x.
    fn fill(&mut self, k: Column, from: u32, to: u32, x: u32)
        ensures { self.new.words ≡ filled (column_number k) x (to - from) from self.old.words }
    {
        for i in from..to {
            self.put(k, i, x);
        }
    }

    // What the statement x emitted, from the state before it to the state behind it.
    pub fn note(&mut self, before: State, behind: State, x: u32)
        ensures { self.new.words ≡ noted before behind x self.old.words }
    {
        self.fill(
            Column::Definitions,
            before.definitions,
            behind.definitions,
            x,
        );
        self.fill(Column::Equations, before.equations, behind.equations, x);
    }
}
