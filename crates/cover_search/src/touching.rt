// Slots of the stack that are not only loaded and stored whole over R10.

use crate::agreeing::kind_of;
use crate::flow::{slot_at, whole_slot};
use crate::locations::Locations;
use kind_core::{Kind, Kinds};
use xdp_machine::bpf_isa::{Helper, Insn, Op, Size};
use xdp_machine::xdp_maps::decl::MapDecl;

/// The bytes of a slot, and the most slots that a key or a value begins.
const SLOT_BYTES: u32 = 8;

const MOST_SLOTS: u32 = 8;

// The slot of a place in the stack, at a distance from a pointer.
fn slot_over(base: Kind, distance: i64) -> Locations {
    let at = match base {
        Kind::Stack(o) => slot_at(i64::from(o).saturating_add(distance)),
        _ => None,
    };
    match at {
        Some(s) => Locations::slot(s),
        None => Locations::NONE,
    }
}

// The slots of so many bytes from a pointer on.
fn slots_over(base: Kind, bytes: u32) -> Locations {
    let mut found = Locations::NONE;
    for k in 0..MOST_SLOTS {
        let distance = k * SLOT_BYTES;
        if distance < bytes {
            found = found.with(slot_over(base, i64::from(distance)));
        }
    }
    found.with(slot_over(base, i64::from(bytes).saturating_sub(1)))
}

// The sizes of the keys and values of a map.
fn sizes(decls: &[MapDecl], map: Kind) -> (u32, u32) {
    match map {
        Kind::MapRef(q) if (q as usize) < decls.len() => {
            (decls[q as usize].key, decls[q as usize].value)
        }
        _ => (0, 0),
    }
}

// The slots of a helper's key and value.
fn touched_by_call(id: i64, kinds: &Kinds, decls: &[MapDecl]) -> Locations {
    let (key, value) = sizes(decls, kinds.registers[1]);
    let of_key = slots_over(kinds.registers[2], key);
    match Helper::of(id) {
        Some(Helper::Lookup | Helper::Delete) => of_key,
        Some(Helper::Update) => of_key.with(slots_over(kinds.registers[3], value)),
        _ => Locations::NONE,
    }
}

// The slot of an access, unless it takes the slot whole over R10.
fn touched_by_access(base: u8, size: Size, offset: i16, kinds: &Kinds) -> Locations {
    match whole_slot(base, size, offset) {
        Some(_) => Locations::NONE,
        None => slot_over(kind_of(kinds, base), i64::from(offset)),
    }
}

/// The slots that an instruction touches in another way than whole over R10: what is in them always matters.
pub(crate) fn touched(insn: &Insn, kinds: &Kinds, decls: &[MapDecl]) -> Locations {
    match insn.op {
        Op::Load(size) => touched_by_access(insn.src, size, insn.offset, kinds),
        Op::Store(size) | Op::StoreImm(size) => {
            touched_by_access(insn.dst, size, insn.offset, kinds)
        }
        Op::LoadSigned(_) => slot_over(kind_of(kinds, insn.src), i64::from(insn.offset)),
        Op::Call => touched_by_call(insn.imm, kinds, decls),
        _ => Locations::NONE,
    }
}
