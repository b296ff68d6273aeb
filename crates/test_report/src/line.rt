// A line of text. Where it is longer than the room for one it is cut.
// Kept as it is: `tell` promises that it wrote as many bytes as the line has, and `println!` answers no such count.
ghost use Rattle.std.specs.Prelude.{◌≡◌, ◌++◌, ◌≤◌, take, get_or};
ghost use Rattle.constraint_text.specs.Text.{decimal};
ghost use Rattle.test_report.specs.Lines.{LINE, piece, takes, filled};

use arrayvec::ArrayVec;
use itoa::Buffer;

// Room for every line of the test programs.
const LINE: usize = 256;

pub type Line = ArrayVec<u8, LINE>;

// A count stands for it.
const MARK: u8 = b'#';

// As much of the text as there is room for.
fn push_text(line: &mut Line, text: &[u8])
    ensures { line.new.items ≡ take LINE (line.old.items ++ text.now) }
{
    let n = line.remaining_capacity().min(text.len());
    let _fits = line.try_extend_from_slice(&text[..n]);
}

fn push_decimal(line: &mut Line, n: u64)
    ensures { line.new.items ≡ take LINE (line.old.items ++ decimal n) }
{
    let mut digits = Buffer::new();
    push_text(line, digits.format(n).as_bytes());
}

// A byte of a text: the count in decimal for a mark, any other as it is.
fn push_next(line: &mut Line, byte: u8, n: u64)
    ensures { line.new.items ≡ take LINE (line.old.items ++ piece byte n) }
{
    if byte == MARK {
        push_decimal(line, n);
    } else {
        push_text(line, &[byte]);
    }
}

// How many counts a byte takes.
fn taken(byte: u8) -> usize
    ensures { (result ≡ takes byte) × (result ≤ 1) }
{
    usize::from(byte == MARK)
}

fn count_at(counts: &[u64], k: usize) -> u64
    ensures { result ≡ get_or counts.now k 0 }
{
    counts.get(k).copied().unwrap_or(0)
}

// The text, with the next of the counts for each mark of it.
// Kept as it is: the place of the next count goes on at a mark alone, so no `zip` or `enumerate` has it.
pub fn fill_line(text: &[u8], counts: &[u64]) -> Line
    ensures { result.items ≡ take LINE (filled text.now counts.now) }
{
    let mut line = Line::new();
    let mut next = 0usize;
    for byte in text {
        push_next(&mut line, *byte, count_at(counts, next));
        next += taken(*byte);
    }
    line
}
