//! Tests of strings where they stand in a table. They read no more than the text that they are compared with, whatever the
//! table holds.

ghost use Rattle.std.specs.Prelude.{◌≡◌, ◌≢◌, ◌∷◌, ◌++◌, ℕ, List, nat_eq, false, drop, codes, IsSome, MatchBool, MatchOption};
ghost use Rattle.std.specs.List.{starts_with};
ghost use Rattle.std.specs.Option.{option_map_or};
ghost use Rattle.std.specs.Str.{bytes_eq};
ghost use Rattle.elf_view.specs.File.{string_at};

/// The bytes of a table from a place on.
fn from_place(table: &[u8], at: u32) -> &[u8]
    ensures { result.now ≡ drop at table.now }
{
    let start = (at as usize).min(table.len());
    &table[start..]
}

/// Whether a zero byte comes first.
fn begins_with_zero(bytes: &[u8]) -> bool
    ensures { MatchBool result ((rest : List ℕ) × (bytes.now ≡ 0 ∷ rest)) ((rest : List ℕ) → bytes.now ≢ 0 ∷ rest) }
{
    match bytes {
        [0, ..] => true,
        _ => false,
    }
}

/// What stands after a text, if the bytes begin with it.
fn after<'a>(bytes: &'a [u8], text: &[u8]) -> Option<&'a [u8]>
    ensures { MatchOption result
        ((rest : List ℕ) → bytes.now ≢ text.now ++ rest)
        (λ rest. bytes.now ≡ text.now ++ rest.now) }
{
    bytes.strip_prefix(text)
}

/// Whether the string at a place of a table is this text.
pub fn is_text(table: &[u8], at: u32, text: &[u8]) -> bool
    ensures { result ≡ option_map_or (λ s. bytes_eq s text.now) (string_at table.now at) false }
{
    let Some(behind) = after(from_place(table, at), text) else {
        return false;
    };
    if !begins_with_zero(behind) {
        return false;
    }
    !text.contains(&0)
}

/// Whether the string at a place of a table begins with `xdp`. It has to end in the table.
pub fn begins_with_xdp(table: &[u8], at: u32) -> bool
    requires { IsSome (string_at table.now at) }
    ensures { result ≡ option_map_or (λ s. starts_with nat_eq s (codes "xdp")) (string_at table.now at) false }
{
    from_place(table, at).starts_with(b"xdp")
}
