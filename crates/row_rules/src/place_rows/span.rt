// Data locations that follow one another.

ghost use Rattle.std.specs.Prelude.{◌≡◌, ◌<◌, ◌^◌, ◌+ℤ◌, pos, unsigned_abs};
ghost use Rattle.row_rules.specs.PlaceRows.Locations.{location_number};
ghost use Rattle.row_rules.specs.PlaceRows.Spans.{one, target, pending, byte, region, map_of, pending_of, key_in, value_in};

use crate::place_rows::location::{FIRST_BYTE, FIRST_SLOT, LOCATIONS, Location};
use kind_core::Kind;
use xdp_state::xdp_maps::decl::MapDecl;

/// Data locations that follow one another, by their numbers, up to the one before `end`.
#[derive(Copy, Clone, Debug, PartialEq, Eq)]
pub struct Span {
    pub from: usize,
    pub end: usize,
}

/// No location.
pub const NONE: Span = Span { from: 0, end: 0 };

/// All data locations.
pub const EVERY: Span = Span {
    from: 0,
    end: LOCATIONS,
};

/// One location.
fn one(location: Location) -> Span
    ensures { result ≡ one (location_number location) }
{
    let from = location.number();
    Span {
        from,
        end: from + 1,
    }
}

/// A register.
pub fn register(r: u8) -> Span
    ensures { result ≡ one r }
{
    one(Location::Register(r))
}

/// The target of a redirect.
pub fn target() -> Span
    ensures { result ≡ target }
{
    one(Location::Target)
}

/// What is pending of a map.
pub fn pending(map: u32) -> Span
    ensures { result ≡ pending map }
{
    one(Location::PendingWrites(map))
}

// A byte of the packet, at a distance and an offset from a place in it.
fn byte_from(place: u16, f: i16, offset: i16) -> usize
    ensures value { result ≡ byte (unsigned_abs (pos place +ℤ f +ℤ offset)) }
    ensures small { result < 2 ^ 33 }
{
    let at = i32::from(place) + i32::from(f) + i32::from(offset);
    FIRST_BYTE + at.unsigned_abs() as usize
}

/// The slots or the bytes of so many bytes from a pointer on, all that they may be from a place that is not known; none of other kinds.
pub fn region(base: Kind, offset: i16, count: u32) -> Span
    ensures { result ≡ region base offset count }
{
    match base {
        Kind::Stack(o) => {
            let at = (i32::from(o) + i32::from(offset) + 512).unsigned_abs() as usize;
            Span {
                from: FIRST_SLOT + at / 8,
                end: FIRST_SLOT + (at + count as usize + 7) / 8,
            }
        }
        Kind::Packet(o) => {
            let at = (i32::from(o) + i32::from(offset)).unsigned_abs() as usize;
            Span {
                from: FIRST_BYTE + at,
                end: FIRST_BYTE + at + count as usize,
            }
        }
        Kind::Var(base, f) => Span {
            from: byte_from(base.bounds.low, f, offset),
            end: byte_from(base.bounds.high, f, offset) + count as usize,
        },
        _ => NONE,
    }
}

/// The map that a kind speaks of.
pub fn map_of(kind: Kind) -> Option<u32>
    ensures { result ≡ map_of kind }
{
    match kind {
        Kind::MapRef(q) | Kind::Entry(q, _) => Some(q),
        _ => None,
    }
}

/// What is pending of the map that a kind speaks of.
pub fn pending_of(kind: Kind) -> Span
    ensures { result ≡ pending_of kind }
{
    match map_of(kind) {
        Some(q) => pending(q),
        None => NONE,
    }
}

/// The bytes of a map's keys.
pub fn key_bytes(decls: &[MapDecl], kind: Kind) -> u32
    ensures { result ≡ key_in decls.now (map_of kind) }
{
    match map_of(kind) {
        Some(q) => match decls.get(q as usize) {
            Some(decl) => decl.key,
            None => 0,
        },
        None => 0,
    }
}

/// The bytes of a map's values.
pub fn value_bytes(decls: &[MapDecl], kind: Kind) -> u32
    ensures { result ≡ value_in decls.now (map_of kind) }
{
    match map_of(kind) {
        Some(q) => match decls.get(q as usize) {
            Some(decl) => decl.value,
            None => 0,
        },
        None => 0,
    }
}
