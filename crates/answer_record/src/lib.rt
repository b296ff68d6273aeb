// An answer as a program gives it out in bytes: the record on standard output, or its refusal on standard error; and the bytes that an
// argument says to lend.
#![tactic(auto)]

ghost use Rattle.std.specs.Prelude.{◌≡◌, ◌≤◌, length};
ghost use Rattle.streams.specs.Streams.{Whole, Added};
ghost use Rattle.answer_record.specs.Given.{number_of, Few, given_of, bytes_of};

use std::env::FillError;
use std::io::Write;
use std::rt::Env;
use streams::{Failed, close_output, write_output};

// More than can matter to lend.
pub const MANY: usize = 100000000;

// The room for an argument.
const ARGUMENT: usize = 4096;

// A number in decimal, or MANY where it is larger; none, where a byte is no digit or there is none.
// Kept as it is: `str::parse` takes a sign before the digits, and fails where the number is too large.
fn number(text: &[u8]) -> Option<usize>
    ensures { (result ≡ number_of text.now) × Few result }
{
    if text.is_empty() {
        return None;
    }
    let mut value = 0usize;
    for digit in text {
        if !digit.is_ascii_digit() {
            return None;
        }
        value = (value * 10 + usize::from(*digit - b'0')).min(MANY);
    }
    Some(value)
}

// The bytes that an argument says to lend. One that is missing says MANY, and one that is too long is no number.
pub fn lent_bytes(rt: &impl Env, argument: usize) -> Option<usize>
    ensures { Few result }
{
    let mut text = [0u8; ARGUMENT];
    match rt.arg(argument, &mut text) {
        Ok(n) => number(&text[..n]),
        Err(FillError::NotPresent) => Some(MANY),
        Err(FillError::TooLong) => None,
    }
}

fn print_record<W: Write>(rt: &impl Eprint, to: &mut W, bytes: &[u8]) -> Result<usize, Failed>
    ensures whole { Whole result (length bytes.now) }
    ensures bytes { Added result (W.contents to.old) (W.contents to.new) bytes.now }
{
    let written = write_output(rt, to, bytes)?;
    close_output(rt, to, written)
}

// "refused" with the number on standard error, and nothing on standard output.
fn print_refused(rt: &impl Eprint, number: u32) -> Result<usize, Failed>
    ensures { Whole result 0 }
{
    let _ = eprintln!(rt; "refused {number}");
    Ok(0)
}

// The record at the front of the output, or "refused" with the number: how many bytes went to standard output, or that a write failed.
// Kept as it is: answer_text's function of this name prints lines, and a refusal on standard output; one for both would take what prints as closures.
pub fn print_answer<W: Write>(
    rt: &impl Eprint,
    to: &mut W,
    answer: Result<usize, u32>,
    out: &[u8],
) -> Result<usize, Failed>
    ensures whole { Whole result (given_of answer (length out.now)) }
    ensures bytes { Added result (W.contents to.old) (W.contents to.new) (bytes_of answer out.now) }
{
    match answer {
        Ok(n) => match out.get(..n) {
            Some(record) => print_record(rt, to, record),
            None => Ok(0),
        },
        Err(number) => print_refused(rt, number),
    }
}
