// What the text programs print of an answer: the equalities of the record that was written, or the refusal.
#![tactic(auto)]

ghost use Rattle.std.specs.Prelude.{Ok};
ghost use Rattle.constraint_text.specs.Reading.{lines, lines_text};
ghost use Rattle.constraint_text.specs.Text.{refused_text};
ghost use Rattle.streams.specs.Streams.{Whole, Added};
ghost use Rattle.answer_text.specs.Answered.{lines_of, printed_of};

use constraint_text::{print_equalities, print_refused};
use std::io::Write;
use streams::{Failed, close_output};

// Kept as it is: answer_record's print_record and print_answer print bytes, and a refusal on standard error; one for both would take what prints as closures.
fn print_record<W: Write>(rt: &impl Eprint, to: &mut W, s: &[u8]) -> Result<usize, Failed>
    ensures all { Whole result (lines s.now) }
    ensures bytes { Added result (W.contents to.old) (W.contents to.new) (lines_text s.now 0 (lines s.now)) }
{
    let lines = print_equalities(rt, to, s)?;
    close_output(rt, to, lines)
}

fn print_number<W: Write>(rt: &impl Eprint, to: &mut W, number: u32) -> Result<usize, Failed>
    ensures all { Whole result 1 }
    ensures bytes { Added result (W.contents to.old) (W.contents to.new) (refused_text number) }
{
    print_refused(rt, to, number)?;
    close_output(rt, to, 1)
}

// The record of n bytes at the front of out; nothing, where it has not so many.
fn print_front<W: Write>(
    rt: &impl Eprint,
    to: &mut W,
    out: &[u8],
    n: usize,
) -> Result<usize, Failed>
    ensures all { Whole result (lines_of (Ok n) out.now) }
    ensures bytes { Added result (W.contents to.old) (W.contents to.new) (printed_of (Ok n) out.now) }
{
    match out.get(..n) {
        Some(record) => print_record(rt, to, record),
        None => close_output(rt, to, 0),
    }
}

// Prints an answer whose record stands at the front of out, or whatever number it was refused by, and ends standard output; gives how many lines.
pub fn print_answer<W: Write>(
    rt: &impl Eprint,
    to: &mut W,
    answer: Result<usize, u32>,
    out: &[u8],
) -> Result<usize, Failed>
    ensures all { Whole result (lines_of answer out.now) }
    ensures bytes { Added result (W.contents to.old) (W.contents to.new) (printed_of answer out.now) }
{
    match answer {
        Ok(n) => print_front(rt, to, out, n),
        Err(number) => print_number(rt, to, number),
    }
}
