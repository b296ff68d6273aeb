// The rows: a name's id, if it has one; the undo list has each bound name, and what its row held before.
// Kept as it is: two arrays by name, not one of pairs: the definitions have locals and globals apart, and a scope's end restores locals alone.
// Ids and names are below 2 ^ 16, and are held so: all rows and entries are cleared at each call, which is most of the time of a small record.
ghost use Rattle.std.specs.Prelude.{◌≡◌, ℕ, ◌≤◌, ◌<◌};
ghost use Rattle.numbering.specs.Walks.{Sized, Chosen, depth, undone, no_scopes, bound_to, unwound_to};
ghost use Rattle.records.specs.FlatRecord.{IDS};
ghost use Rattle.records.specs.SourceRecord.{NAMES, NODES};

use arrayvec::ArrayVec;
use records::intrinsics::FIRST_FREE_ID;
use records::source_record::{NAMES, NODES};

// A name that a pattern bound, and what its row held before.
#[derive(Clone, Copy, Default)]
pub struct Undo {
    pub name: u16,
    pub before: Option<u16>,
}

// What numbering changes: the rows of the locals and of the globals, the undo list, the id of each node, and the next free id.
#[derive(Drop)]
pub struct Scopes {
    pub locals: [Option<u16>; NAMES],
    pub globals: [Option<u16>; NAMES],
    pub undo: ArrayVec<Undo, NODES>,
    pub ids: [u32; NODES],
    pub next: u32,
}

impl Scopes {
    // No name has an id yet.
    pub fn new() -> Self
        ensures { result ≡ no_scopes }
    {
        Scopes {
            locals: [None; NAMES],
            globals: [None; NAMES],
            undo: ArrayVec::new(),
            ids: [0; NODES],
            next: FIRST_FREE_ID,
        }
    }

    // The id of name x: that of the local, else of the global, else of a new global.
    pub fn number_variable(&mut self, x: usize) -> u32
        requires { (x < NAMES) × (self.old.next < IDS) }
        ensures { Chosen x self.old result self.new }
    {
        match self.locals[x].or(self.globals[x]) {
            Some(id) => u32::from(id),
            None => {
                let id = self.next;
                self.next += 1;
                self.globals[x] = Some(id as u16);
                id
            }
        }
    }

    // A new id for name x, at node k: what its row held goes to the undo list.
    pub fn bind(&mut self, x: usize, k: usize)
        requires { ((x < NAMES) × (k < NODES)) × ((self.old.next < IDS) × (depth self.old < NODES)) }
        ensures bound { self.new ≡ bound_to x k self.old }
        ensures sized { Sized self.old }
    {
        self.undo.push(Undo {
            name: x as u16,
            before: self.locals[x],
        });
        self.ids[k] = self.next;
        self.locals[x] = Some(self.next as u16);
        self.next += 1;
    }

    // The end of a scope: the entries of the undo list from `base` on are undone, the last first.
    pub fn unwind(&mut self, base: usize)
        requires within { base ≤ depth self.old }
        requires names { (i : ℕ) → base ≤ i → i < depth self.old → (undone self.old.undo.items i).name < NAMES }
        ensures { self.new ≡ unwound_to base self.old }
    {
        // Kept as it is: with `for .. in self.undo.drain(base..).rev()` nothing is known of the list that the loop's end gives back.
        let mut entries = self.undo.drain(base..);
        while let Some(entry) = entries.next_back() {
            self.locals[entry.name as usize] = entry.before;
        }
    }
}
