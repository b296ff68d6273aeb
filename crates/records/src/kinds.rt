// The kinds of nodes (docs/RECORDS.md, "Source record"): expressions 0 to 13, links 14, patterns 16 to 22. Kind 10 stands in no record: the evaluator's
// intrinsics. Kinds 24, 25, 27 and 28 stand in no record either: the patterns that a pattern variable was expanded to.
ghost use Rattle.std.specs.Prelude.{◌≡◌, ◌%◌};
ghost use Rattle.records.specs.Kinds.{kind_number, Kinds};

// A kind has five bits: the spare ones are in no node.
#[derive(Clone, Copy, Debug, PartialEq, Eq, Hash)]
pub enum Kind {
    Unit,
    Nil,
    Product,
    Cons,
    Infix,
    Negate,
    Application,
    Constant,
    Variable,
    Function,
    Intrinsic,
    Let,
    Match,
    Sequence,
    Link,
    Spare15,
    UnitPattern,
    NilPattern,
    AsPattern,
    ProductPattern,
    ConsPattern,
    VariablePattern,
    ConstantPattern,
    Spare23,
    ExpandedUnit,
    ExpandedNil,
    Spare26,
    ExpandedProduct,
    ExpandedCons,
    Spare29,
    Spare30,
    Spare31,
}

// A number of no kind.
#[derive(Clone, Copy, Debug, PartialEq, Eq, Hash)]
pub struct NoKind(pub u32);

impl Kind {
    // The kind in the first word of a node, whose other bits may say more.
    pub fn of(word: u32) -> Self
        ensures { kind_number result ≡ word % 32 }
    {
        match word % 32 {
            0 => Kind::Unit,
            1 => Kind::Nil,
            2 => Kind::Product,
            3 => Kind::Cons,
            4 => Kind::Infix,
            5 => Kind::Negate,
            6 => Kind::Application,
            7 => Kind::Constant,
            8 => Kind::Variable,
            9 => Kind::Function,
            10 => Kind::Intrinsic,
            11 => Kind::Let,
            12 => Kind::Match,
            13 => Kind::Sequence,
            14 => Kind::Link,
            15 => Kind::Spare15,
            16 => Kind::UnitPattern,
            17 => Kind::NilPattern,
            18 => Kind::AsPattern,
            19 => Kind::ProductPattern,
            20 => Kind::ConsPattern,
            21 => Kind::VariablePattern,
            22 => Kind::ConstantPattern,
            23 => Kind::Spare23,
            24 => Kind::ExpandedUnit,
            25 => Kind::ExpandedNil,
            26 => Kind::Spare26,
            27 => Kind::ExpandedProduct,
            28 => Kind::ExpandedCons,
            29 => Kind::Spare29,
            30 => Kind::Spare30,
            _ => Kind::Spare31,
        }
    }
}

impl From<Kind> for u32 {
    ghost from_gives = { λ k n. n ≡ kind_number k };

    fn from(k: Kind) -> u32 {
        k as u32
    }
}

impl TryFrom<u32> for Kind {
    type Error = NoKind;

    ghost try_from_gives = { Kinds };

    fn try_from(word: u32) -> Result<Self, NoKind> {
        if 31 < word {
            return Err(NoKind(word));
        }
        Ok(Kind::of(word))
    }
}

// The words of the kinds.
pub const UNIT: u32 = Kind::Unit as u32;

pub const NIL: u32 = Kind::Nil as u32;

pub const PRODUCT: u32 = Kind::Product as u32;

pub const CONS: u32 = Kind::Cons as u32;

pub const INFIX: u32 = Kind::Infix as u32;

pub const NEGATE: u32 = Kind::Negate as u32;

pub const APPLICATION: u32 = Kind::Application as u32;

pub const CONSTANT: u32 = Kind::Constant as u32;

pub const VARIABLE: u32 = Kind::Variable as u32;

pub const FUNCTION: u32 = Kind::Function as u32;

pub const INTRINSIC: u32 = Kind::Intrinsic as u32;

pub const LET: u32 = Kind::Let as u32;

pub const MATCH: u32 = Kind::Match as u32;

pub const SEQUENCE: u32 = Kind::Sequence as u32;

pub const LINK: u32 = Kind::Link as u32;

pub const UNIT_PATTERN: u32 = Kind::UnitPattern as u32;

pub const NIL_PATTERN: u32 = Kind::NilPattern as u32;

pub const AS_PATTERN: u32 = Kind::AsPattern as u32;

pub const PRODUCT_PATTERN: u32 = Kind::ProductPattern as u32;

pub const CONS_PATTERN: u32 = Kind::ConsPattern as u32;

pub const VARIABLE_PATTERN: u32 = Kind::VariablePattern as u32;

pub const CONSTANT_PATTERN: u32 = Kind::ConstantPattern as u32;
