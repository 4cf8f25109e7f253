// Numbers in words.

ghost use Rattle.std.specs.Prelude.{◌≡◌, ◌≤◌, ◌<◌, ◌^◌, ℕ, IsTrue, IfSome, IfNone, ◌↔◌, ◌≢◌, slice_index, length, decimal};

// The number from `low` to `high` that the text is in decimal.
pub(crate) fn number(text: &str, low: u32, high: u32) -> Option<u32>
    ensures some { IfSome result (λ n. (text.now ≡ decimal n) × (low ≤ n) × (n ≤ high)) }
    ensures none { IfNone result ((n : ℕ) → text.now ≡ decimal n → low ≤ n → n ≤ high → ⊥) }
{
    let n = any_number(text)?;
    if low <= n && n <= high { Some(n) } else { None }
}

// The number that the text is in decimal.
fn any_number(text: &str) -> Option<u32>
    ensures some { IfSome result (λ n. text.now ≡ decimal n) }
    ensures none { IfNone result ((n : ℕ) → text.now ≡ decimal n → n < 2 ^ 32 → ⊥) }
{
    if !is_plain(text) {
        return None;
    }
    match text.parse() {
        Ok(n) => Some(n),
        Err(_) => None,
    }
}

// Whether the text does not begin with `+` (43) or with a needless zero (48).
fn is_plain(text: &str) -> bool
    ensures { IsTrue result ↔ ((slice_index text.now 0 ≢ 43) × (slice_index text.now 0 ≡ 48 → length text.now ≡ 1)) }
{
    match text.as_bytes() {
        [b'+', ..] => false,
        [b'0', _, ..] => false,
        _ => true,
    }
}
