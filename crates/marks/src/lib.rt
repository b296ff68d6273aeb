// Marks of nodes by their indices: whether a record uses each node exactly once.
#![tactic(auto)]

ghost use Rattle.std.specs.Prelude.{◌≡◌, ◌≤◌, ◌<◌, List};
ghost use Rattle.marks.specs.declared.Uses.{Uses};
ghost use Rattle.marks.specs.Marks.{more, no_marks, used, all_once};

use std::marker::Model;

// How often a node is used, told as far as "exactly once" asks.
#[derive(Clone, Copy, Debug, PartialEq, Eq)]
pub enum Uses {
    Never,
    Once,
    Again,
}

impl Uses {
    // After one use more.
    #[tactic(auto, unfolding(crate::specs::Marks::more))]
    fn more(self) -> Self
        ensures { result ≡ more self }
    {
        match self {
            Uses::Never => Uses::Once,
            Uses::Once => Uses::Again,
            Uses::Again => Uses::Again,
        }
    }
}

// The marks of N nodes.
#[derive(Drop)]
pub struct Marks<const N: usize> {
    pub uses: [Uses; N],
}

// Clauses see the marks as a list.
impl<const N: usize> Model for Marks<N> {
    ghost Value = { List Uses };

    ghost view = { λ m. m.uses };
}

impl<const N: usize> Marks<N> {
    // Nothing uses any node.
    #[tactic(auto, unfolding(crate::specs::Marks::no_marks))]
    pub fn new() -> Self
        ensures { result ≡ no_marks N }
    {
        Marks {
            uses: [Uses::Never; N],
        }
    }

    // A node is used once more.
    #[tactic(auto, unfolding(crate::specs::Marks::used))]
    pub fn add(&mut self, x: usize)
        requires { x < N }
        ensures { self.new ≡ used self.old x }
    {
        self.uses[x] = self.uses[x].more();
    }

    // Whether each of the first n nodes is used exactly once.
    pub fn all_once(&self, n: usize) -> bool
        requires { n ≤ N }
        ensures { result ≡ all_once self.now n }
    {
        self.uses[..n].iter().all(|u| *u == Uses::Once)
    }
}
