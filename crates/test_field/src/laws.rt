// The laws of field/specs/Desk.antt tried with the operations of the code: both sides of each on numbers at the edges, and on rows of
// numbers with the value that another program made.
ghost use Rattle.std.specs.Prelude.{◌≡◌, ◌≤◌, length};
ghost use Rattle.field.specs.Prime.{P};
ghost use Rattle.field.specs.Desk.{chained};

use field::InfixOp;

// The fields of `DeskLaws`, in their order.
#[derive(Clone, Copy)]
pub enum Law {
    SumsCommute,
    ProductsCommute,
    SumsRegroup,
    ProductsRegroup,
    ProductsDistribute,
    ProductsDistributeRight,
    OppositeElement,
    OppositeSum,
    OppositeOnly,
    DifferenceSum,
    DivideBySecond,
    DivideByFirst,
    DivideZBySecond,
    DivideZByFirst,
    DivideElement,
    DivideZElement,
    DivideByZero,
    DivideZByZero,
    DivideZZeros,
    CanonicalSum,
    CanonicalProduct,
}

// All of them.
const LAWS: [Law; 21] = [
    Law::SumsCommute,
    Law::ProductsCommute,
    Law::SumsRegroup,
    Law::ProductsRegroup,
    Law::ProductsDistribute,
    Law::ProductsDistributeRight,
    Law::OppositeElement,
    Law::OppositeSum,
    Law::OppositeOnly,
    Law::DifferenceSum,
    Law::DivideBySecond,
    Law::DivideByFirst,
    Law::DivideZBySecond,
    Law::DivideZByFirst,
    Law::DivideElement,
    Law::DivideZElement,
    Law::DivideByZero,
    Law::DivideZByZero,
    Law::DivideZZeros,
    Law::CanonicalSum,
    Law::CanonicalProduct,
];

// Numbers at the edges: of the elements, of i64, and multiples of the prime, which stand for 0.
const EDGES: [i64; 9] = [
    0,
    1,
    -1,
    1073741823,
    -1073741823,
    -9223372036854775808,
    9223372036854775807,
    2147483647,
    -2147483647,
];

const SINGLES: usize = 9;

const PAIRS: usize = 81;

const TRIPLES: usize = 729;

// A law at three operands, with the value that both sides are to have.
#[derive(Clone, Copy)]
pub struct LawVector {
    pub law: Law,
    pub a: i64,
    pub b: i64,
    pub c: i64,
    pub value: Option<i64>,
}

// The two sides of a law.
#[derive(Clone, Copy)]
struct Sides {
    left: Option<i64>,
    right: Option<i64>,
}

// How often laws were tried, and how often their sides differ.
#[derive(Clone, Copy)]
pub struct Tried {
    pub cases: u64,
    pub differ: u64,
}

impl Tried {
    fn of(cases: usize, differ: usize) -> Tried
        ensures { (result.cases ≡ cases) × (result.differ ≡ differ) }
    {
        Tried {
            cases: cases as u64,
            differ: differ as u64,
        }
    }
}

// An operation on two answers.
fn chained(op: InfixOp, x: Option<i64>, y: Option<i64>) -> Option<i64>
    ensures { result ≡ chained P op x y }
{
    field::infix(op, x?, y?)
}

fn add(x: Option<i64>, y: Option<i64>) -> Option<i64> {
    chained(InfixOp::Add, x, y)
}

fn multiply(x: Option<i64>, y: Option<i64>) -> Option<i64> {
    chained(InfixOp::Multiply, x, y)
}

fn canonical(a: i64) -> Option<i64> {
    Some(field::canonical(a))
}

fn negate(a: i64) -> Option<i64> {
    Some(field::negate(a))
}

fn both(left: Option<i64>, right: Option<i64>) -> Sides {
    Sides { left, right }
}

fn commuted(op: InfixOp, x: Option<i64>, y: Option<i64>) -> Sides {
    both(chained(op, x, y), chained(op, y, x))
}

fn regrouped(op: InfixOp, x: Option<i64>, y: Option<i64>, z: Option<i64>) -> Sides {
    both(
        chained(op, chained(op, x, y), z),
        chained(op, x, chained(op, y, z)),
    )
}

fn distributed(x: Option<i64>, y: Option<i64>, z: Option<i64>) -> Sides {
    both(multiply(x, add(y, z)), add(multiply(x, y), multiply(x, z)))
}

fn distributed_right(x: Option<i64>, y: Option<i64>, z: Option<i64>) -> Sides {
    both(multiply(add(x, y), z), add(multiply(x, z), multiply(y, z)))
}

// The sum is 0 just if b is the opposite: 1 where it is, else 0.
fn opposed(a: i64, b: i64) -> Sides {
    both(
        alike(add(Some(a), Some(b)), Some(0)),
        alike(canonical(b), negate(a)),
    )
}

// What dividing a product by its factor gives: the other, or what is given at 0.
fn given_back(other: i64, factor: i64, at_zero: Option<i64>) -> Option<i64> {
    if field::canonical(factor) == 0 {
        return at_zero;
    }
    canonical(other)
}

fn over_second(op: InfixOp, a: i64, b: i64, at_zero: Option<i64>) -> Sides {
    let y = Some(b);
    both(
        chained(op, multiply(Some(a), y), y),
        given_back(a, b, at_zero),
    )
}

fn over_first(op: InfixOp, a: i64, b: i64, at_zero: Option<i64>) -> Sides {
    let x = Some(a);
    both(
        chained(op, multiply(x, Some(b)), x),
        given_back(b, a, at_zero),
    )
}

// What a number gives by `|` over 0: 0 gives 0, any other number no value.
fn given_at_zero(a: i64) -> Option<i64> {
    if field::canonical(a) == 0 {
        return Some(0);
    }
    None
}

// By b - b.
fn over_zero(op: InfixOp, x: Option<i64>, y: Option<i64>, at_zero: Option<i64>) -> Sides {
    both(chained(op, x, chained(InfixOp::Subtract, y, y)), at_zero)
}

// Laws with a condition are tried without it: where a factor is 0 the right side is what division by 0 gives, and "no other is the
// opposite" is tried as "just the opposite is". Of the last two c is the sum or the product.
fn sides_of(law: Law, a: i64, b: i64, c: i64) -> Sides {
    let x = Some(a);
    let y = Some(b);
    let z = Some(c);
    let none = None;
    let zero = Some(0);
    match law {
        Law::SumsCommute => commuted(InfixOp::Add, x, y),
        Law::ProductsCommute => commuted(InfixOp::Multiply, x, y),
        Law::SumsRegroup => regrouped(InfixOp::Add, x, y, z),
        Law::ProductsRegroup => regrouped(InfixOp::Multiply, x, y, z),
        Law::ProductsDistribute => distributed(x, y, z),
        Law::ProductsDistributeRight => distributed_right(x, y, z),
        Law::OppositeElement => both(canonical(field::negate(a)), negate(a)),
        Law::OppositeSum => both(add(x, negate(a)), zero),
        Law::OppositeOnly => opposed(a, b),
        Law::DifferenceSum => both(chained(InfixOp::Subtract, x, y), add(x, negate(b))),
        Law::DivideBySecond => over_second(InfixOp::Divide, a, b, none),
        Law::DivideByFirst => over_first(InfixOp::Divide, a, b, none),
        Law::DivideZBySecond => over_second(InfixOp::DivideZ, a, b, zero),
        Law::DivideZByFirst => over_first(InfixOp::DivideZ, a, b, zero),
        Law::DivideElement => over_second(InfixOp::Divide, field::canonical(a), b, none),
        Law::DivideZElement => over_second(InfixOp::DivideZ, field::canonical(a), b, zero),
        Law::DivideByZero => over_zero(InfixOp::Divide, x, y, none),
        Law::DivideZByZero => over_zero(InfixOp::DivideZ, x, y, given_at_zero(a)),
        Law::DivideZZeros => over_zero(InfixOp::DivideZ, chained(InfixOp::Subtract, x, x), y, zero),
        Law::CanonicalSum => both(canonical(c), add(canonical(a), canonical(b))),
        Law::CanonicalProduct => both(canonical(c), multiply(canonical(a), canonical(b))),
    }
}

// 1 where two answers are one, else 0.
// Kept as it is: a truth is an answer here, since the sides of every other law are answers.
fn alike(x: Option<i64>, y: Option<i64>) -> Option<i64> {
    Some(i64::from(x == y))
}

// Whether the sides of a law differ.
fn is_broken(law: Law, a: i64, b: i64, c: i64) -> bool {
    let sides = sides_of(law, a, b, c);
    sides.left != sides.right
}

// Whether both sides of a law have the value given.
fn has_value(row: &LawVector) -> bool {
    let sides = sides_of(row.law, row.a, row.b, row.c);
    sides.left == row.value && sides.right == row.value
}

// How many operands a law has that are tried at the edges. The last two have rows only, in which the sum or product stands.
fn operands(law: Law) -> u8 {
    match law {
        Law::SumsRegroup => 3,
        Law::ProductsRegroup => 3,
        Law::ProductsDistribute => 3,
        Law::ProductsDistributeRight => 3,
        Law::OppositeElement => 1,
        Law::OppositeSum => 1,
        Law::CanonicalSum => 0,
        Law::CanonicalProduct => 0,
        _ => 2,
    }
}

// How many of the edges a test finds.
// Kept as it is: a function that takes a closure asks that it can be called, here and twice below; no type says so.
fn edges_with<F: Fn(i64) -> bool>(test: F) -> usize
    requires { F.IsAlwaysCallable test }
    ensures { result ≤ 9 }
{
    EDGES.iter().filter(|a| test(**a)).count()
}

// How many pairs of them.
fn pairs_with<F: Fn(i64, i64) -> bool>(test: F) -> usize
    requires { F.IsAlwaysCallable test }
    ensures { result ≤ 81 }
{
    let mut found = 0;
    for a in EDGES {
        found += edges_with(|b| test(a, b));
    }
    found
}

// How many triples of them.
fn triples_with<F: Fn(i64, i64, i64) -> bool>(test: F) -> usize
    requires { F.IsAlwaysCallable test }
    ensures { result ≤ 729 }
{
    let mut found = 0;
    for a in EDGES {
        found += pairs_with(|b, c| test(a, b, c));
    }
    found
}

// A law on the numbers, pairs or triples of the edges: how many there are, and how many of them break it.
fn law_at_edges(law: Law) -> Tried
    ensures { (result.differ ≤ result.cases) × (result.cases ≤ 729) }
{
    match operands(law) {
        0 => Tried::of(0, 0),
        1 => Tried::of(SINGLES, edges_with(|a| is_broken(law, a, 0, 0))),
        2 => Tried::of(PAIRS, pairs_with(|a, b| is_broken(law, a, b, 0))),
        _ => Tried::of(TRIPLES, triples_with(|a, b, c| is_broken(law, a, b, c))),
    }
}

// Every law on the edges.
pub fn laws_at_edges() -> Tried
    ensures { result.differ ≤ result.cases }
{
    let mut all = Tried::of(0, 0);
    for law in LAWS {
        let one = law_at_edges(law);
        all.cases += one.cases;
        all.differ += one.differ;
    }
    all
}

pub fn differing_laws(rows: &[LawVector]) -> u64
    ensures { result ≤ length rows.now }
{
    rows.iter().filter(|row| !has_value(row)).count() as u64
}
