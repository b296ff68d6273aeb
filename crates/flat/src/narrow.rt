// The constants of flat records.
ghost use Rattle.std.specs.Prelude.{◌≡◌};
ghost use Rattle.std.proofs.Common.{of_z};
ghost use Rattle.std.specs.Int.{w32};
ghost use Rattle.flat.specs.Narrow.{narrow};

use field::canonical;
use words::unsigned;

const LEAST: i64 = -2147483648;

const GREATEST: i64 = 2147483647;

// The number that a flat list has for a constant: its element where it has more than 32 bits.
fn narrowed(z: i64) -> i64
    ensures { result ≡ narrow z }
{
    if z < LEAST {
        return canonical(z);
    }
    if GREATEST < z {
        return canonical(z);
    }
    z
}

// Its 32 bits.
pub fn narrow(z: i64) -> u32
    ensures { result ≡ of_z w32 (narrow z) }
{
    unsigned(narrowed(z) as i32)
}
