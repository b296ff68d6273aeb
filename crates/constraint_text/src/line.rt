// The parts of a line, each behind what the line has already.
ghost use Rattle.std.specs.Prelude.{◌≡◌, ◌++◌, ◌+◌, ◌≤◌, length};
ghost use Rattle.arrayvec.specs.ArrayString.{array_string_len};
ghost use Rattle.streams.specs.Streams.{IsPrefixLen};
ghost use Rattle.constraint_text.specs.Text.{set_bytes, term_text, sign_of, between};
ghost use Rattle.constraint_text.specs.Text.{side_text, equality_text, line_text, next_text, refused_text};

use arrayvec::ArrayString;
use constraint::{Equality, Operation, Term};
use field::InfixOp;
use itoa::{Buffer, Integer};

// Room for every line.
pub const LINE: usize = 80;

// Kept as it is: `impl Display` and `write!` were tried; std says what a `write!` that is Ok has written, and never that one is Ok, and no line may fail.
type Line = ArrayString<LINE>;

// Kept as it is: each part asks for room of its own in the line, a number that no type of the line could say.
fn push_number<I: Integer>(line: &mut Line, n: I)
    requires { array_string_len line.old + I.MAX_STR_LEN ≤ LINE }
    ensures value { line.new.bytes ≡ line.old.bytes ++ I.text n }
    ensures upper_bound { array_string_len line.new ≤ array_string_len line.old + I.MAX_STR_LEN }
{
    let mut digits = Buffer::new();
    line.push_str(digits.format(n));
}

fn push_term(line: &mut Line, term: Term)
    requires { array_string_len line.old + 20 ≤ LINE }
    ensures value { line.new.bytes ≡ line.old.bytes ++ term_text term }
    ensures upper_bound { array_string_len line.new ≤ array_string_len line.old + 20 }
{
    match term {
        Term::Variable(id) => {
            line.push_str("v");
            push_number(line, id);
        }
        Term::Constant(number) => push_number(line, field::canonical(i64::from(number))),
    }
}

// The sign of an operator between two blanks. Kept as it is: signs are of this text alone, so no conversion of `InfixOp` says them.
#[tactic(auto, unfolding(crate::specs::Text::sign_of, crate::specs::Text::between))]
fn sign(op: InfixOp) -> &'static str
    ensures { result.now ≡ between (sign_of op) }
{
    match op {
        InfixOp::Divide => " / ",
        InfixOp::DivideZ => " | ",
        InfixOp::Multiply => " * ",
        InfixOp::Add => " + ",
        InfixOp::Subtract => " - ",
        InfixOp::Equal => " = ",
        InfixOp::Exponentiate => " ^ ",
        InfixOp::IntDivide => " \\ ",
        InfixOp::Modulo => " % ",
    }
}

#[tactic(auto, unfolding(crate::specs::Text::side_text, crate::specs::Text::between))]
fn push_side(line: &mut Line, operation: Operation, first: Term, second: Term)
    requires { array_string_len line.old + 43 ≤ LINE }
    ensures value { line.new.bytes ≡ line.old.bytes ++ side_text operation first second }
    ensures upper_bound { array_string_len line.new ≤ array_string_len line.old + 43 }
{
    match operation {
        Operation::Infix(op) => {
            push_term(line, first);
            line.push_str(sign(op));
            push_term(line, second);
        }
        Operation::Negate => {
            line.push_str("-");
            push_term(line, first);
        }
        Operation::Copy => push_term(line, first),
    }
}

// The line at the front of the bytes; the answer is its length.
// Kept as it is: the public functions write into bytes that are lent, and promise those behind the line; a `Line` has none behind it.
fn copy_line(line: &Line, out: &mut [u8; LINE]) -> usize
    ensures value { (result ≡ array_string_len line.now) × (out.new ≡ set_bytes out.old 0 line.now.bytes) }
    ensures prefix_len { IsPrefixLen result out.new }
{
    let n = line.len();
    out[..n].copy_from_slice(line.as_str().as_bytes());
    n
}

// The line of an equality, at the front of the bytes.
pub fn equality_line(equality: Equality, out: &mut [u8; LINE]) -> usize
    ensures value { (result ≡ length (equality_text equality)) × (out.new ≡ set_bytes out.old 0 (equality_text equality)) }
    ensures prefix_len { IsPrefixLen result out.new }
{
    let Equality {
        left,
        operation,
        first,
        second,
    } = equality;
    let mut line = Line::new();
    push_term(&mut line, left);
    line.push_str(" = ");
    push_side(&mut line, operation, first, second);
    line.push_str("\n");
    copy_line(&line, out)
}

// A word and a number, at the front of the bytes.
fn put_line(out: &mut [u8; LINE], word: &str, n: u64) -> usize
    requires { length word.now ≤ 20 }
    ensures value { (result ≡ length (line_text word.now n)) × (out.new ≡ set_bytes out.old 0 (line_text word.now n)) }
    ensures prefix_len { IsPrefixLen result out.new }
{
    let mut line = Line::new();
    line.push_str(word);
    push_number(&mut line, n);
    line.push_str("\n");
    copy_line(&line, out)
}

// "next" and the next free id.
#[tactic(auto, unfolding(crate::specs::Text::next_text))]
pub fn next_line(next: usize, out: &mut [u8; LINE]) -> usize
    ensures value { (result ≡ length (next_text next)) × (out.new ≡ set_bytes out.old 0 (next_text next)) }
    ensures prefix_len { IsPrefixLen result out.new }
{
    // Kept as it is: `as`, since Rust has no `From` of a usize for u64.
    put_line(out, "next ", next as u64)
}

// "refused" and the number.
#[tactic(auto, unfolding(crate::specs::Text::refused_text))]
pub fn refused_line(number: u32, out: &mut [u8; LINE]) -> usize
    ensures value { (result ≡ length (refused_text number)) × (out.new ≡ set_bytes out.old 0 (refused_text number)) }
    ensures prefix_len { IsPrefixLen result out.new }
{
    put_line(out, "refused ", u64::from(number))
}
