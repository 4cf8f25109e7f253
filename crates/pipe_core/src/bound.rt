//! How many clocks the frames of a file may take.

ghost use Rattle.std.specs.Prelude.{◌≡◌, ◌+◌, ◌-◌, ◌*◌, ◌^◌, min};

/// In so many clocks n frames of at most b beats are answered by a program whose last row is s, with q sites that may write; where that
/// exceeds 64 bits, the most that there are.
pub fn clock_bound(n: u64, s: u64, b: u64, q: u64) -> u64
    ensures { result ≡ min (n * (s + 2 * b + q + 8)) (2 ^ 64 - 1) }
{
    let each = s
        .saturating_add(b.saturating_mul(2))
        .saturating_add(q)
        .saturating_add(8);
    n.saturating_mul(each)
}
