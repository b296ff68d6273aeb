// Residues: the numbers from 0 to P - 1, and the way from a signed number to its residue and from there to its element.
ghost use Rattle.std.specs.Prelude.{◌≡◌, ◌%◌, ◌^◌, ◌<◌};
ghost use Rattle.std.specs.Int.Signed.{mag};
ghost use Rattle.field.specs.Prime.{P};
ghost use Rattle.field.specs.Element.{res, centre};

// The field's prime, and the largest element.
pub const P: u64 = 2147483647;

const HALF: u64 = 1073741823;

// n for n and for -(n + 1).
// Kept as it is: std has no such method; `unsigned_abs` gives n + 1 for -(n + 1).
fn magnitude(x: i64) -> u64
    ensures { result ≡ mag x }
{
    if x < 0 { !x as u64 } else { x as u64 }
}

// The residue of x: the number from 0 to P - 1 that x is congruent to.
// Kept as it is: with `x.rem_euclid(P)` a sum or a product takes half as long again; the bar is the Rust's time, over which small records are as it is.
pub fn residue(x: i64) -> u64
    ensures value { result ≡ res P x }
    ensures upper_bound { result < P }
{
    let r = magnitude(x) % P;
    if x < 0 { P - 1 - r } else { r }
}

// The element with the residue r.
// Kept as it is: `as` of a number that fits, here and for a quotient, is that number; `cast_signed` would say its 64 bits, to be read anew.
pub fn centred(r: u64) -> i64
    requires { r < P }
    ensures { result ≡ centre P r }
{
    if r <= HALF {
        r as i64
    } else {
        -((P - r) as i64)
    }
}

// The power of a residue, by squares.
// Kept as it is: that a residue is below P is a line of each contract here; a struct round it would put a projection into every statement.
pub fn power_of(b: u64, n: u64) -> u64
    requires { b < P }
    ensures value { result ≡ b ^ n % P }
    ensures upper_bound { result < P }
{
    let mut product: u64 = 1;
    let mut base = b;
    let mut left = n;
    while left > 0 {
        if left % 2 == 1 {
            product = product * base % P;
        }
        base = base * base % P;
        left /= 2;
    }
    product
}
