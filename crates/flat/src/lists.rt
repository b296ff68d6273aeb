// Lists of ids: words below a limit, words that rise.
ghost use Rattle.std.specs.Prelude.{◌≡◌, ◌+◌, ◌*◌, ◌≤◌, length};
ghost use Rattle.flat.specs.Record.{all_below, rising};

use words::count;

// Whether n words from word `at` on lie below a limit.
pub fn all_below(s: &[u8], at: usize, n: usize, limit: usize) -> bool
    requires { 4 * (at + n) ≤ length s.now }
    ensures { result ≡ all_below s.now at n limit }
{
    (0..n).all(|k| count(s, at + k) < limit)
}

// Whether n words from word `at` on rise.
pub fn rises(s: &[u8], at: usize, n: usize) -> bool
    requires { 4 * (at + n) ≤ length s.now }
    ensures { result ≡ rising s.now at n }
{
    (1..n).all(|k| count(s, at + k - 1) < count(s, at + k))
}
