// Runs the field on vectors that another program made, and the desk's laws on numbers at the edges and on such vectors, and writes how
// many there were and how many answers differ. A write that fails is said on standard error.
#![tactic(auto)]

mod law_vectors;
mod laws;
mod vectors;

use field::InfixOp;
use law_vectors::LAW_VECTORS;
use laws::{differing_laws, laws_at_edges};
use std::rt::Env;
use streams::{Failed, open_standard};
use test_report::{tell, tell_last};
use vectors::{FIRST_COUNTS, POWER_COUNTS, VECTORS};

// What is asked of the field. Those on one operand leave the other.
#[derive(Clone, Copy)]
enum Operation {
    Infix(InfixOp),
    Canonical,
    Negate,
    Inverse,
}

// An operation on two operands, with what it is to answer.
#[derive(Clone, Copy)]
struct Vector {
    operation: Operation,
    a: i64,
    b: i64,
    answer: Option<i64>,
}

// An exponent with its count of definitions.
#[derive(Clone, Copy)]
struct PowerCount {
    exponent: u64,
    count: u64,
}

fn answer_of(operation: Operation, a: i64, b: i64) -> Option<i64> {
    match operation {
        Operation::Infix(op) => field::infix(op, a, b),
        Operation::Canonical => Some(field::canonical(a)),
        Operation::Negate => Some(field::negate(a)),
        Operation::Inverse => field::inverse(a),
    }
}

fn differing_vectors(vectors: &[Vector]) -> usize {
    vectors
        .iter()
        .filter(|v| answer_of(v.operation, v.a, v.b) != v.answer)
        .count()
}

// The counts of the exponents from 1 on.
fn differing_first(counts: &[u64]) -> usize {
    counts
        .iter()
        .zip(1..u64::MAX)
        .filter(|(count, exponent)| **count != field::counts::power_count(*exponent))
        .count()
}

fn differing_counts(powers: &[PowerCount]) -> usize {
    powers
        .iter()
        .filter(|power| field::counts::power_count(power.exponent) != power.count)
        .count()
}

fn run(rt: &(impl Env + Print + Eprint)) -> Result<usize, Failed> {
    open_standard(rt, "usage: test_field\n")?;
    let of_vectors = [VECTORS.len() as u64, differing_vectors(&VECTORS) as u64];
    tell(rt, b"# vectors, # differ\n", &of_vectors)?;
    let of_first = [
        FIRST_COUNTS.len() as u64,
        differing_first(&FIRST_COUNTS) as u64,
    ];
    tell(rt, b"# power counts from 1 on, # differ\n", &of_first)?;
    let of_powers = [
        POWER_COUNTS.len() as u64,
        differing_counts(&POWER_COUNTS) as u64,
    ];
    tell(rt, b"# more power counts, # differ\n", &of_powers)?;
    let edges = laws_at_edges();
    let of_edges = [edges.cases, edges.differ];
    tell(rt, b"# law cases at the edges, # differ\n", &of_edges)?;
    let of_laws = [LAW_VECTORS.len() as u64, differing_laws(&LAW_VECTORS)];
    tell_last(rt, b"# law vectors, # differ\n", &of_laws)
}

fn main(rt: HostRuntime) {
    let _ = run(&rt);
}
