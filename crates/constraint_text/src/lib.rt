// The text of a constraint record, in ASCII: "next N", then an equality a line. A line is made in an array of the caller's
// and written by one call. What is proved is each line, how many there are, and that a writer gets one after the other.
#![tactic(auto)]

mod line;

ghost use Rattle.std.specs.Prelude.{◌≡◌, ◌≤◌, length};
ghost use Rattle.constraint_text.specs.Text.{set_bytes, refused_text};
ghost use Rattle.streams.specs.Streams.{IsPrefixLen, Whole, Added};
ghost use Rattle.constraint_text.specs.Reading.{lines, line_at, lines_text};

use constraint::reading::{equality_at, layout_of};
use constraint::{EQUALITY_WORDS, HEADER_BYTES};
pub use line::{LINE, equality_line, next_line, refused_line};
use std::io::Write;
use streams::{Failed, write_output};

// The counts of a record are any words, so lines are counted only as far as its bytes go.
fn line_count(s: &[u8]) -> usize
    ensures { result ≡ lines s.now }
{
    if s.len() < HEADER_BYTES {
        return 0;
    }
    let l = layout_of(s);
    let whole = (s.len() / 4).saturating_sub(l.equalities_at) / EQUALITY_WORDS;
    1 + l.equalities.min(whole)
}

// Line k of the text of a record, at the front of the bytes; of no bytes behind the last line.
// Kept as it is: the promise is one equation for every line number, which an Option would cut in two.
pub fn line_at(s: &[u8], k: usize, out: &mut [u8; LINE]) -> usize
    ensures value { (result ≡ length (line_at s.now k)) × (out.new ≡ set_bytes out.old 0 (line_at s.now k)) }
    ensures prefix_len { IsPrefixLen result out.new }
{
    if line_count(s) <= k {
        return 0;
    }
    let l = layout_of(s);
    if k == 0 {
        return next_line(l.next, out);
    }
    equality_line(equality_at(s, l.equalities_at, k - 1), out)
}

fn print_line<W: Write>(rt: &impl Eprint, out: &mut W, s: &[u8], k: usize) -> Result<usize, Failed>
    ensures whole { Whole result (length (line_at s.now k)) }
    ensures bytes { Added result (W.contents out.old) (W.contents out.new) (line_at s.now k) }
{
    let mut line = [0u8; LINE];
    let n = line_at(s, k, &mut line);
    write_output(rt, out, &line[..n])
}

// The text of a record on standard output, line by line as `line_at` makes them; the answer is how many there were.
pub fn print_equalities<W: Write>(rt: &impl Eprint, out: &mut W, s: &[u8]) -> Result<usize, Failed>
    ensures all { Whole result (lines s.now) }
    ensures bytes { Added result (W.contents out.old) (W.contents out.new) (lines_text s.now 0 (lines s.now)) }
{
    let lines = line_count(s);
    for k in 0..lines {
        print_line(rt, out, s, k)?;
    }
    Ok(lines)
}

// "refused N", on standard output. Kept as it is: one function for this and `print_line` would take the line by a closure, which is no plainer.
pub fn print_refused<W: Write>(rt: &impl Eprint, out: &mut W, number: u32) -> Result<usize, Failed>
    ensures whole { Whole result (length (refused_text number)) }
    ensures bytes { Added result (W.contents out.old) (W.contents out.new) (refused_text number) }
{
    let mut line = [0u8; LINE];
    let n = refused_line(number, &mut line);
    write_output(rt, out, &line[..n])
}
