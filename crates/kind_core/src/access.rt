// Loads, stores and atomic changes.

ghost use Rattle.std.specs.Prelude.{◌≡◌, ◌+◌, ◌<◌, ◌≤◌, IfOk};
ghost use Rattle.xdp_machine.specs.Memory.{bytes_in};
ghost use Rattle.xdp_machine.specs.Atomics.{fetches};
ghost use Rattle.kind_core.specs.Places.{FitsSlot};
ghost use Rattle.kind_core.specs.Effects.{IsInside};
ghost use Rattle.kind_core.specs.Access.{context_field, is_context, from_context, from_slot, found, loaded, loaded_plain, loaded_signed, underlying, to_slot, stored_at, stored, compares, comparand, taking, changed_at, atomic};

use crate::effects::Effect;
use crate::kind::{Kind, Kinds};
use crate::number::{self, Number};
use crate::places::{Place, accessed};
use crate::tests::{number_in, readable};
use xdp_machine::bpf_isa::{Insn, Size, Width};
use xdp_machine::xdp_maps::decl::MapDecl;
use xdp_state::Why;
use xdp_state::memory::bytes_in;

// The fields of the context.
fn context_field(offset: i16) -> Result<Kind, Why>
    ensures { result ≡ context_field offset }
{
    match offset {
        0 => Ok(Kind::Packet(0)),
        4 => Ok(Kind::End),
        12 | 16 => Ok(Kind::Num(number::any(Width::Bits32))),
        _ => Err(Why::Offset),
    }
}

// Whether it is the context.
fn is_context(kind: Kind) -> bool
    ensures { result ≡ is_context kind }
{
    matches!(kind, Kind::Ctx)
}

// A load from the context.
fn from_context(offset: i16, size: Size) -> Result<Kind, Why>
    ensures { result ≡ from_context offset size }
{
    match size {
        Size::W => context_field(offset),
        _ => Err(Why::Offset),
    }
}

// What a part of a slot gives.
fn from_slot(size: Size, at: usize, slot: Kind) -> Result<Kind, Why>
    requires { at + bytes_in size ≤ 8 }
    ensures { result ≡ from_slot size at slot }
{
    match size {
        Size::Dw => Ok(slot),
        _ => Ok(Kind::Num(number::part(size, at, number_in(slot)?))),
    }
}

// What a load finds at a place.
fn found(slots: &[Kind; 64], size: Size, place: Place) -> Result<Kind, Why>
    requires { FitsSlot size place }
    ensures { result ≡ found slots.now size place }
{
    match place {
        Place::InPacket | Place::InEntry => Ok(Kind::Num(number::any_bytes(size))),
        Place::InStack(at) => {
            let slot = slots[at / 8];
            readable(slot)?;
            from_slot(size, at % 8, slot)
        }
    }
}

// What a load finds at an offset from a pointer, but for the context.
#[tactic(auto, unfolding(crate::specs::Access::loaded))]
fn loaded(
    decls: &[MapDecl],
    kinds: &Kinds,
    base: Kind,
    offset: i16,
    size: Size,
) -> Result<Kind, Why>
    ensures { result ≡ loaded decls.now kinds.now base offset size }
{
    let place = accessed(decls, kinds.checked, base, offset, size)?;
    found(&kinds.slots, size, place)
}

/// MEM.
#[tactic(auto, unfolding(crate::specs::Access::loaded_plain))]
pub(crate) fn loaded_plain(
    decls: &[MapDecl],
    kinds: &Kinds,
    base: Kind,
    offset: i16,
    size: Size,
) -> Result<Kind, Why>
    ensures { result ≡ loaded_plain decls.now kinds.now base offset size }
{
    if is_context(base) {
        from_context(offset, size)
    } else {
        loaded(decls, kinds, base, offset, size)
    }
}

/// MEMSX.
#[tactic(auto, unfolding(crate::specs::Access::loaded_signed))]
pub(crate) fn loaded_signed(
    decls: &[MapDecl],
    kinds: &Kinds,
    base: Kind,
    offset: i16,
    size: Size,
) -> Result<Kind, Why>
    requires { bytes_in size ≤ 4 }
    ensures { result ≡ loaded_signed decls.now kinds.now base offset size }
{
    if is_context(base) {
        return Err(Why::Offset);
    }
    let kind = loaded(decls, kinds, base, offset, size)?;
    let n = number_in(kind)?;
    Ok(Kind::Num(number::extended(Width::Bits64, 8 * bytes_in(size) as u64, n)))
}

// What a part of a slot is stored into: zeros in place of a pointer.
fn underlying(slot: Kind) -> Result<Number, Why>
    ensures { result ≡ underlying slot }
{
    match slot {
        Kind::Mixed => Err(Why::Mixed),
        Kind::Num(n) => Ok(n),
        Kind::Unset => Ok(number::any(Width::Bits64)),
        _ => Ok(Number::Known(0)),
    }
}

// What a slot holds after a store into it.
fn to_slot(size: Size, at: usize, slot: Kind, kind: Kind) -> Result<Kind, Why>
    requires { at + bytes_in size ≤ 8 }
    ensures { result ≡ to_slot size at slot kind }
{
    match size {
        Size::Dw => Ok(kind),
        _ => {
            let n = number_in(kind)?;
            let old = underlying(slot)?;
            Ok(Kind::Num(number::patched(size, at, old, n)))
        }
    }
}

// A store at a place.
fn stored_at(slots: &[Kind; 64], size: Size, kind: Kind, place: Place) -> Result<Effect, Why>
    requires { FitsSlot size place }
    ensures value { result ≡ stored_at slots.now size kind place }
    ensures inside { IfOk result IsInside }
{
    match place {
        Place::InPacket | Place::InEntry => {
            number_in(kind)?;
            Ok(Effect::Nothing)
        }
        Place::InStack(at) => {
            let slot = to_slot(size, at % 8, slots[at / 8], kind)?;
            Ok(Effect::Slot(at / 8, slot))
        }
    }
}

/// A store of a kind at an offset from a pointer.
#[tactic(auto, unfolding(crate::specs::Access::stored))]
pub(crate) fn stored(
    decls: &[MapDecl],
    kinds: &Kinds,
    base: Kind,
    offset: i16,
    size: Size,
    kind: Kind,
) -> Result<Effect, Why>
    ensures value { result ≡ stored decls.now kinds.now base offset size kind }
    ensures inside { IfOk result IsInside }
{
    let place = accessed(decls, kinds.checked, base, offset, size)?;
    stored_at(&kinds.slots, size, kind, place)
}

/// Whether an atomic change compares with R0.
pub(crate) fn compares(insn: &Insn) -> bool
    ensures { result ≡ compares insn.now }
{
    let code = insn.imm.cast_unsigned();
    code - code % 2 == 0xf0
}

/// Whether the old number is fetched.
pub(crate) fn fetches(code: u64) -> bool
    ensures { result ≡ fetches code }
{
    code % 2 == 1
}

// What is compared with is a number.
fn comparand(insn: &Insn, kinds: &Kinds) -> Result<(), Why>
    ensures { result ≡ comparand insn.now kinds.now }
{
    if compares(insn) {
        number_in(kinds.registers[0])?;
    }
    Ok(())
}

// Where the old number goes.
fn taking(insn: &Insn) -> Effect
    requires { insn.now.src ≤ 10 }
    ensures value { result ≡ taking insn.now }
    ensures inside { IsInside result }
{
    if compares(insn) {
        Effect::Register(0, Kind::Num(number::any(Width::Bits64)))
    } else if fetches(insn.imm.cast_unsigned()) {
        Effect::Register(insn.src, Kind::Num(number::any(Width::Bits64)))
    } else {
        Effect::Nothing
    }
}

// An atomic change at a place.
fn changed_at(kinds: &Kinds, insn: &Insn, place: Place) -> Result<Effect, Why>
    requires { insn.now.src ≤ 10 }
    ensures value { result ≡ changed_at kinds.now insn.now place }
    ensures inside { IfOk result IsInside }
{
    match place {
        Place::InPacket | Place::InStack(_) => Err(Why::Instruction),
        Place::InEntry => {
            number_in(kinds.registers[insn.src as usize])?;
            comparand(insn, kinds)?;
            Ok(taking(insn))
        }
    }
}

/// An atomic change.
pub(crate) fn atomic(
    decls: &[MapDecl],
    kinds: &Kinds,
    insn: &Insn,
    size: Size,
) -> Result<Effect, Why>
    requires dst { insn.now.dst ≤ 10 }
    requires src { insn.now.src ≤ 10 }
    ensures value { result ≡ atomic decls.now kinds.now insn.now size }
    ensures inside { IfOk result IsInside }
{
    let base = kinds.registers[insn.dst as usize];
    let place = accessed(decls, kinds.checked, base, insn.offset, size)?;
    changed_at(kinds, insn, place)
}
