//! Names of the subset.

ghost use Rattle.std.specs.Prelude.{◌≡◌, ◌<◌, length, map, string_bytes, IfOk, IfSome};
ghost use Rattle.std.specs.List.{list_any, list_all};
ghost use Rattle.std.specs.Str.{bytes_eq};
ghost use Rattle.design_rules.specs.Formed.{is_new_in, TellNew};
ghost use Rattle.design_rules.specs.FormedSyntax as syntax;

use std::alloc::{AllocError, Global};
use std::collections::HashSet;

/// A letter or `_`.
fn begins_name(c: u8) -> bool
    ensures { result ≡ syntax.begins_name c }
{
    c >= b'a' && c <= b'z' || c >= b'A' && c <= b'Z' || c == b'_'
}

/// A letter, a digit or `_`.
fn continues_name(c: u8) -> bool
    ensures { result ≡ syntax.continues_name c }
{
    begins_name(c) || c >= b'0' && c <= b'9'
}

/// Letters, digits and `_` alone.
fn continue_name(rest: &[u8]) -> bool
    ensures { result ≡ list_all syntax.continues_name rest.now }
{
    rest.iter().all(|c| continues_name(*c))
}

/// Letters, digits and `_`, not beginning with a digit.
#[tactic(auto, using(crate::proofs::FormedNames::identifier_at))]
fn is_identifier(name: &[u8]) -> bool
    ensures { result ≡ syntax.is_identifier name.now }
{
    if name.is_empty() {
        return false;
    }
    begins_name(name[0]) && continue_name(&name[1..])
}

/// Not one of the standard's keywords.
fn is_unreserved(name: &[u8]) -> bool
    ensures { result ≡ syntax.is_unreserved name.now }
{
    name.contains(&b'_') && !name.starts_with(b"pulsestyle_")
}

/// Whether an item may have this name.
pub fn is_name(name: &[u8]) -> bool
    ensures { result ≡ syntax.is_name name.now }
{
    name == b"clk".as_slice()
        || name == b"ehdl".as_slice()
        || is_identifier(name) && is_unreserved(name)
}

/// Whether a name is among others.
fn is_among(name: &[u8], names: &[String]) -> bool
    ensures { result ≡ list_any (λ other. bytes_eq name.now (string_bytes other)) names.now }
{
    names.iter().any(|other| name == other.as_bytes())
}

/// Flags that tell of each name whether it stands at no place before. Names are found by their hashes.
pub fn new_names(alloc: Global, names: &[String]) -> Result<Vec<bool>, AllocError>
    ensures { IfOk result (λ flags. TellNew (map string_bytes names.now) flags.items) }
{
    let mut seen = HashSet::new(alloc);
    let mut flags = Vec::new(alloc);
    for name in names {
        let added = seen.insert(name.as_bytes())?;
        flags.push(added)?;
    }
    Ok(flags)
}

// Whether a name stands at no place before, as flags tell.
fn told_new(names: &[String], flags: &[bool], place: usize) -> bool
    requires place { place < length names.now }
    requires told { TellNew (map string_bytes names.now) flags.now }
    ensures { result ≡ is_new_in (map string_bytes names.now) place }
{
    flags[place]
}

// The same, found among the names before.
fn found_new(names: &[String], place: usize) -> bool
    requires { place < length names.now }
    ensures { result ≡ is_new_in (map string_bytes names.now) place }
{
    !is_among(names[place].as_bytes(), &names[..place])
}

/// Whether the name at a place is the name of no place before it: by the flags that tell it, where there are such, or else by the
/// names themselves.
pub fn is_new(names: &[String], flags: Option<&[bool]>, place: usize) -> bool
    requires place { place < length names.now }
    requires told { IfSome flags (λ all. TellNew (map string_bytes names.now) all.now) }
    ensures { result ≡ is_new_in (map string_bytes names.now) place }
{
    match flags {
        Some(all) => told_new(names, all, place),
        None => found_new(names, place),
    }
}
