// The intrinsics: fresh, iter and fold, with their ids and those of their arguments, as transform.rs registers them.
ghost use Rattle.std.specs.Prelude.{◌≡◌};
ghost use Rattle.records.specs.Intrinsics.{intrinsic_number, intrinsic_of, id_of, argument_of};

// In the order of their numbers: `IntrinsicImp`.
#[derive(Clone, Copy)]
pub enum Intrinsic {
    Fresh,
    Iter,
    Fold,
}

pub const INTRINSICS: u32 = Intrinsic::Fold as u32 + 1;

pub const FIRST_FREE_ID: u32 = 9;

impl Intrinsic {
    pub fn id(self) -> u32
        ensures { result ≡ id_of self }
    {
        match self {
            Intrinsic::Fresh => 0,
            Intrinsic::Iter => 2,
            Intrinsic::Fold => 5,
        }
    }

    pub fn argument(self) -> u32
        ensures { result ≡ argument_of self }
    {
        match self {
            Intrinsic::Fresh => 1,
            Intrinsic::Iter => 3,
            Intrinsic::Fold => 7,
        }
    }
}

impl From<Intrinsic> for u32 {
    ghost from_gives = { λ intrinsic which. which ≡ intrinsic_number intrinsic };

    fn from(intrinsic: Intrinsic) -> u32 {
        intrinsic as u32
    }
}

// The intrinsic that a node's word says: 0, 1 or any other.
impl From<u32> for Intrinsic {
    ghost from_gives = { λ which intrinsic. intrinsic ≡ intrinsic_of which };

    #[tactic(auto, unfolding(crate::specs::Intrinsics::intrinsic_of))]
    fn from(which: u32) -> Self {
        match which {
            0 => Intrinsic::Fresh,
            1 => Intrinsic::Iter,
            _ => Intrinsic::Fold,
        }
    }
}
