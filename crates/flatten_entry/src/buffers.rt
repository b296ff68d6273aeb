// Zeros to read a record into, and the most that can matter to lend as store and output (`long-as-front`, `large-as-most`
// and `longest-record` in proofs/).
ghost use Rattle.std.specs.Prelude.{◌≡◌};
ghost use Rattle.flatten_entry.specs.Buffers.{record_buffer, store_buffer, output_buffer};

use eval_memory::{MOST_UNITS, UNIT_BYTES};
use pass_entry::OUTPUT_BYTES;
use source::BYTES;

// One byte more than the longest record has.
pub const RECORD_BYTES: usize = BYTES + 1;

pub const STORE_BYTES: usize = MOST_UNITS as usize * UNIT_BYTES;

// A longer input has the answer of its first bytes, so many.
// Kept as it is: a function for each: `words::filled` was tried, and a caller's proof computed its many places one by one, until the stack ended.
#[tactic(auto, unfolding(crate::specs::Buffers::record_buffer))]
pub fn record_buffer() -> [u8; RECORD_BYTES]
    ensures { result ≡ record_buffer }
{
    [0u8; RECORD_BYTES]
}

// 16 bytes for each node that a store may hold.
#[tactic(auto, unfolding(crate::specs::Buffers::store_buffer))]
pub fn store_buffer() -> [u8; STORE_BYTES]
    ensures { result ≡ store_buffer }
{
    [0u8; STORE_BYTES]
}

// No constraint record is longer.
#[tactic(auto, unfolding(crate::specs::Buffers::output_buffer))]
pub fn output_buffer() -> [u8; OUTPUT_BYTES]
    ensures { result ≡ output_buffer }
{
    [0u8; OUTPUT_BYTES]
}
