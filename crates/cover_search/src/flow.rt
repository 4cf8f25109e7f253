// What instructions read and write.

use crate::locations::Locations;
use xdp_machine::bpf_isa::{AluCode, Helper, Insn, Op, Size, Src};

/// The bytes of the stack, and of a slot.
const STACK_BYTES: i64 = 512;

const SLOT_BYTES: u32 = 8;

/// The register of the stack's end.
const STACK_END: u8 = 10;

/// What an instruction reads, what of it what it writes is made of, and what it writes.
#[derive(Copy, Clone)]
pub(crate) struct Flow {
    pub reads: Locations,
    pub source: Locations,
    pub writes: Locations,
}

/// The slot of a place in the stack, from its end.
pub(crate) fn slot_at(place: i64) -> Option<u32> {
    let above = place.saturating_add(STACK_BYTES);
    if 0 <= above && above < STACK_BYTES {
        Some(above as u32 / SLOT_BYTES)
    } else {
        None
    }
}

/// The slot that a load or a store over R10 takes whole.
pub(crate) fn whole_slot(base: u8, size: Size, offset: i16) -> Option<u32> {
    if base == STACK_END && size == Size::Dw && offset % 8 == 0 {
        slot_at(i64::from(offset))
    } else {
        None
    }
}

fn slot_of(slot: Option<u32>) -> Locations {
    match slot {
        Some(s) => Locations::slot(s),
        None => Locations::NONE,
    }
}

// The registers that a helper reads.
fn arguments(id: i64) -> Locations {
    let first = Locations::register(1).with(Locations::register(2));
    let others = Locations::register(3).with(Locations::register(4));
    match Helper::of(id) {
        Some(Helper::Lookup | Helper::Delete | Helper::Redirect) => first,
        Some(Helper::Time) => Locations::NONE,
        Some(Helper::Update) => first.with(others),
        None => first.with(others).with(Locations::register(5)),
    }
}

// It reads these, and makes nothing of them.
fn reading(reads: Locations) -> Flow {
    Flow {
        reads,
        source: Locations::NONE,
        writes: Locations::NONE,
    }
}

// It writes what it makes of all that it reads.
fn making(reads: Locations, writes: Locations) -> Flow {
    Flow {
        reads,
        source: reads,
        writes,
    }
}

// A load: what it takes from a slot, or from elsewhere.
fn loading(insn: &Insn, slot: Option<u32>) -> Flow {
    let source = slot_of(slot);
    Flow {
        reads: Locations::register(insn.src).with(source),
        source,
        writes: Locations::register(insn.dst),
    }
}

// A store of these.
fn storing(insn: &Insn, size: Size, stored: Locations) -> Flow {
    Flow {
        reads: Locations::register(insn.dst).with(stored),
        source: stored,
        writes: slot_of(whole_slot(insn.dst, size, insn.offset)),
    }
}

/// What an instruction reads and writes.
pub(crate) fn flow_of(insn: &Insn) -> Flow {
    let dst = Locations::register(insn.dst);
    let src = Locations::register(insn.src);
    match insn.op {
        Op::Alu(_, AluCode::Mov, Src::K) | Op::LoadImm => making(Locations::NONE, dst),
        Op::Alu(_, AluCode::Mov, Src::X) => making(src, dst),
        Op::Alu(_, _, Src::K) | Op::Neg(_) | Op::End(_) | Op::Swap => making(dst, dst),
        Op::Alu(_, _, Src::X) => making(dst.with(src), dst),
        Op::Ja(_) => reading(Locations::NONE),
        Op::Jump(_, _, Src::K) => reading(dst),
        Op::Jump(_, _, Src::X) | Op::Atomic(_) => reading(dst.with(src)),
        Op::Call => Flow {
            reads: arguments(insn.imm),
            source: Locations::NONE,
            writes: Locations::CALLED,
        },
        Op::Exit => reading(Locations::register(0)),
        Op::Load(size) => loading(insn, whole_slot(insn.src, size, insn.offset)),
        Op::LoadSigned(_) | Op::Abs(_) | Op::Ind(_) => loading(insn, None),
        Op::StoreImm(size) => storing(insn, size, Locations::NONE),
        Op::Store(size) => storing(insn, size, src),
    }
}
