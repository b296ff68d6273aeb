// The quotient of two numbers, rounded to the nearest whole number, halves away from zero.
ghost use Rattle.std.specs.Prelude.{◌≡◌, ◌≤◌, ◌<◌, nat_abs};
ghost use Rattle.field.specs.Operations.{nearest, checked_quotient};

// m over d, rounded to the nearest whole number, halves up.
fn nearest_of(m: u64, d: u64) -> u64
    requires { (m ≤ 1073741823) × (d ≤ 1073741823) × (0 < d) }
    ensures value { result ≡ nearest m d }
    ensures upper_bound { result ≤ m }
{
    (2 * m + d) / (2 * d)
}

// x over y, rounded to the nearest whole number, halves away from zero; nothing where y is 0.
pub fn checked_quotient(x: i64, y: i64) -> Option<i64>
    requires { (nat_abs x ≤ 1073741823) × (nat_abs y ≤ 1073741823) }
    ensures { result ≡ checked_quotient x y }
{
    if y == 0 {
        return None;
    }
    let q = nearest_of(x.unsigned_abs(), y.unsigned_abs()) as i64;
    Some(if (x < 0) == (y < 0) { q } else { -q })
}
