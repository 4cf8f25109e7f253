// Where an access through a pointer lands.

ghost use Rattle.std.specs.Prelude.{◌≡◌, ◌+◌, ◌<◌, ◌≤◌, ◌+ℤ◌, pos, IfOk, FitsSigned};
ghost use Rattle.std.specs.Int.{w32};
ghost use Rattle.xdp_machine.specs.Memory.{bytes_in};
ghost use Rattle.kind_core.specs.Kinds.{key_bytes, value_bytes, is_hash};
ghost use Rattle.kind_core.specs.Places.{in_packet, in_stack, in_value, accessed, FitsSlot};

use crate::base::past_base;
use crate::kind::Kind;
use crate::tests::{aligned, within};
use xdp_machine::bpf_isa::Size;
use xdp_machine::xdp_maps::decl::{MapDecl, MapKind};
use xdp_state::Why;
use xdp_state::memory::bytes_in;

/// The bytes that the profile has of a packet.
pub(crate) const WINDOW: usize = 256;

/// The bytes of the stack.
pub(crate) const STACK_BYTES: usize = 512;

/// Where an access lands: in the stack, from its lowest byte.
#[derive(Copy, Clone)]
pub(crate) enum Place {
    InPacket,
    InStack(usize),
    InEntry,
}

/// The bytes of a map's keys: none, if it is not declared.
pub(crate) fn key_bytes(decls: &[MapDecl], q: u32) -> u32
    ensures { result ≡ key_bytes decls.now q }
{
    match decls.get(q as usize) {
        Some(decl) => decl.key,
        None => 0,
    }
}

/// The bytes of a map's values.
pub(crate) fn value_bytes(decls: &[MapDecl], q: u32) -> u32
    ensures { result ≡ value_bytes decls.now q }
{
    match decls.get(q as usize) {
        Some(decl) => decl.value,
        None => 0,
    }
}

/// Whether a map is a hash.
pub(crate) fn is_hash(decls: &[MapDecl], q: u32) -> bool
    ensures { result ≡ is_hash decls.now q }
{
    match decls.get(q as usize) {
        Some(decl) => match decl.kind {
            MapKind::Hash => true,
            MapKind::Array => false,
        },
        None => false,
    }
}

/// Bytes of the packet, of which the first are checked.
pub(crate) fn in_packet(checked: u16, at: i128, n: usize) -> Result<Place, Why>
    ensures { result ≡ in_packet checked at n }
{
    let start = within(at, n, WINDOW)?;
    if start + n <= checked as usize {
        Ok(Place::InPacket)
    } else {
        Err(Why::Unchecked)
    }
}

// An access to the stack, at a place from its end: it lies in one slot.
#[tactic(auto, using(xdp_machine::proofs::SizeLaws::part_fits))]
fn in_stack(z: i128, size: Size) -> Result<Place, Why>
    requires { FitsSigned w32 z }
    ensures value { result ≡ in_stack z size }
    ensures slot { IfOk result (FitsSlot size) }
{
    let at = aligned(z + STACK_BYTES as i128, bytes_in(size), STACK_BYTES)?;
    Ok(Place::InStack(at))
}

// An access to a value of a map.
fn in_value(decls: &[MapDecl], q: u32, at: i128, size: Size) -> Result<Place, Why>
    ensures value { result ≡ in_value decls.now q at size }
    ensures slot { IfOk result (FitsSlot size) }
{
    aligned(at, bytes_in(size), value_bytes(decls, q) as usize)?;
    Ok(Place::InEntry)
}

/// An access at an offset from a pointer, but for the context.
pub(crate) fn accessed(
    decls: &[MapDecl],
    checked: u16,
    base: Kind,
    offset: i16,
    size: Size,
) -> Result<Place, Why>
    ensures value { result ≡ accessed decls.now checked base offset size }
    ensures slot { IfOk result (FitsSlot size) }
{
    let distance = i128::from(offset);
    match base {
        Kind::Packet(o) => in_packet(checked, i128::from(o) + distance, bytes_in(size)),
        Kind::Var(base, f) => past_base(base, i128::from(f) + distance, bytes_in(size)),
        Kind::Stack(o) => in_stack(i128::from(o) + distance, size),
        Kind::Entry(q, o) => in_value(decls, q, i128::from(o) + distance, size),
        Kind::Maybe(_, _) => Err(Why::Null),
        _ => Err(Why::Use),
    }
}
