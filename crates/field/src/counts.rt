// How many definitions a power leaves.
ghost use Rattle.std.specs.Prelude.{◌≡◌};
ghost use Rattle.field.specs.Counts.{power_count};

// How many definitions a base that is no constant leaves at the power n. The power 0 is the constant 1 and leaves none.
pub fn power_count(n: u64) -> u64
    ensures { result ≡ power_count n }
{
    let Some(highest) = n.checked_ilog2() else {
        return 0;
    };
    u64::from(highest + n.count_ones() - 1)
}
