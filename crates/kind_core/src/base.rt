//! Places in the packet that are not known: a base, which the sum at a node gave, and a distance from it.

ghost use Rattle.std.specs.Prelude.{◌≡◌, ◌+ℤ◌, ◌≤ℤ◌, int_le, pos, negsuc};
ghost use Rattle.kind_core.specs.Bases.{in_window, bounds_in, base_from, base_sum, new_base, raised_base, same_base, joined_base};
ghost use Rattle.kind_core.specs.Conditions.{base_test};
ghost use Rattle.kind_core.specs.Places.{past_base};
ghost use Rattle.kind_core.specs.Pointers.{var_at};

use crate::conditions::Condition;
use crate::kind::Kind;
use crate::number::Number;
use crate::places::{Place, WINDOW};
use crate::tests::within;
use xdp_machine::bpf_isa::JumpCode;
use xdp_state::Why;

/// Between which places in the packet a base lies, from the packet's first byte: 0 to 256.
#[derive(Copy, Clone, Debug, PartialEq, Eq)]
pub struct Bounds {
    pub low: u16,
    pub high: u16,
}

/// A base.
#[derive(Copy, Clone, Debug, PartialEq, Eq)]
pub struct Base {
    /// The node of the sum that gave it.
    pub node: u32,
    pub bounds: Bounds,
    /// How many bytes from the base on the packet is known to have: -256, which says nothing, until an edge tells more.
    pub checked: i32,
}

// A place in the first bytes of the packet.
fn in_window(z: i128) -> Option<u16>
    ensures { result ≡ in_window z }
{
    if 0 <= z && z <= 256 {
        Some(z as u16)
    } else {
        None
    }
}

// Bounds in the first bytes of the packet.
fn bounds_in(low: i128, high: i128) -> Option<Bounds>
    ensures { result ≡ bounds_in low high }
{
    match (in_window(low), in_window(high)) {
        (Some(low), Some(high)) => Some(Bounds { low, high }),
        _ => None,
    }
}

// A place behind one at a distance from a bound of a base.
fn place_behind(bound: u16, f: i16, n: u64) -> i128
    ensures { result ≡ (pos bound +ℤ f) +ℤ pos n }
{
    i128::from(bound) + i128::from(f) + i128::from(n)
}

// Where a pointer into the packet and a number that is not known lead.
fn base_from(kind: Kind, n: Number) -> Option<Bounds>
    ensures { result ≡ base_from kind n }
{
    match (kind, n) {
        (Kind::Packet(o), Number::Between(lo, hi)) => {
            let start = i128::from(o);
            bounds_in(start + i128::from(lo), start + i128::from(hi))
        }
        (Kind::Var(base, f), Number::Between(lo, hi)) => {
            let low = place_behind(base.bounds.low, f, lo);
            let high = place_behind(base.bounds.high, f, hi);
            bounds_in(low, high)
        }
        _ => None,
    }
}

/// The bounds of the base that a sum gives.
pub(crate) fn base_sum(a: Kind, b: Kind) -> Option<Bounds>
    ensures { result ≡ base_sum a b }
{
    match (a, b) {
        (Kind::Num(x), _) => base_from(b, x),
        (_, Kind::Num(y)) => base_from(a, y),
        _ => None,
    }
}

/// A base, of which nothing is checked.
pub(crate) fn new_base(node: u32, bounds: Bounds) -> Base
    ensures { result ≡ new_base node bounds }
{
    Base {
        node,
        bounds,
        checked: -256,
    }
}

/// A distance from a base.
pub(crate) fn var_at(base: Base, z: i128) -> Result<Kind, Why>
    ensures { result ≡ var_at base z }
{
    if -256 <= z && z <= 256 {
        Ok(Kind::Var(base, z as i16))
    } else {
        Err(Why::Offset)
    }
}

// A place at a distance from a bound of a base.
fn place_at(bound: u16, z: i128) -> i128
    requires least { negsuc 65535 ≤ℤ z }
    requires most { z ≤ℤ pos 65536 }
    ensures { result ≡ pos bound +ℤ z }
{
    i128::from(bound) + z
}

// Whether bytes at a distance from a base are checked.
fn is_checked(base: Base, z: i128, n: usize) -> bool
    requires least { negsuc 65535 ≤ℤ z }
    requires most { z ≤ℤ pos 65536 }
    ensures { result ≡ int_le (z +ℤ pos n) base.checked }
{
    z + n as i128 <= i128::from(base.checked)
}

/// Bytes at a distance from a base.
pub(crate) fn past_base(base: Base, z: i128, n: usize) -> Result<Place, Why>
    requires least { negsuc 65535 ≤ℤ z }
    requires most { z ≤ℤ pos 65536 }
    ensures { result ≡ past_base base z n }
{
    within(place_at(base.bounds.low, z), 0, WINDOW)?;
    within(place_at(base.bounds.high, z), n, WINDOW)?;
    if is_checked(base, z, n) {
        Ok(Place::InPacket)
    } else {
        Err(Why::Unchecked)
    }
}

/// A place before the packet's end.
pub(crate) fn base_test(code: JumpCode, node: u32, f: i16) -> Result<Condition, Why>
    ensures { result ≡ base_test code node f }
{
    let bytes = i32::from(f);
    match code {
        JumpCode::Jgt => Ok(Condition::BaseTest(false, node, bytes)),
        JumpCode::Jge => Ok(Condition::BaseTest(false, node, bytes + 1)),
        JumpCode::Jlt => Ok(Condition::BaseTest(true, node, bytes + 1)),
        JumpCode::Jle => Ok(Condition::BaseTest(true, node, bytes)),
        _ => Err(Why::Use),
    }
}

/// A base of which more bytes are checked.
pub(crate) fn raised_base(bytes: i32, base: Base) -> Base
    ensures { result ≡ raised_base bytes base }
{
    Base {
        node: base.node,
        bounds: base.bounds,
        checked: base.checked.max(bytes),
    }
}

/// Whether two bases are the same one.
pub(crate) fn same_base(a: Base, b: Base) -> bool
    ensures { result ≡ same_base a b }
{
    a.node == b.node && (a.bounds.low == b.bounds.low && a.bounds.high == b.bounds.high)
}

/// What is known of a base that came along two edges.
pub(crate) fn joined_base(a: Base, b: Base) -> Base
    ensures { result ≡ joined_base a b }
{
    Base {
        node: a.node,
        bounds: a.bounds,
        checked: a.checked.min(b.checked),
    }
}
