//! Atomic changes of numbers in entries.

ghost use Rattle.std.specs.Prelude.{◌≡◌, ◌<◌, ◌≤◌, [], ◌∷◌, ℕ, Bool, List, length, slice_index, OnOk, IfOk, false};
ghost use Rattle.std.specs.Int.{w64, cast_unsigned};
ghost use Rattle.cell_core.specs.bpf_isa.Spelling.{IsInsn};
ghost use Rattle.cell_core.specs.xdp_machine.Atomics.{fetches};
ghost use Rattle.kind_core.specs.Tests.{passed};
ghost use Rattle.kind_core.specs.Kinds as kind;
ghost use Rattle.kind_core.specs.declared.kind.Kind.TheVariants as kind_is;
ghost use Rattle.kind_core.specs.Access.{compares};
ghost use Rattle.kind_core.specs.Effects.{effect_of, verdict};
ghost use Rattle.kind_core.specs.Edges.{transferred};
ghost use Rattle.operator_cells.specs.Making.{seen};
ghost use Rattle.operator_cells.specs.Rising.{RiseAll};
ghost use Rattle.operator_cells.specs.row_rules.PlaceRows.Spans.{one, spans_row};
ghost use Rattle.operator_cells.specs.row_rules.PlaceRows.Reading.{compared_span};
ghost use Rattle.operator_cells.specs.HeldCells.RegisterCells.{PointerView, pointed, AreInside};
ghost use Rattle.operator_cells.specs.HeldCells.Operating.{Operates};
ghost use Rattle.operator_cells.specs.HeldCells.Rows.{held_row, OperatesTo};
ghost use Rattle.operator_cells.specs.HeldCells.Pointing.{OperationPoints};
ghost use Rattle.site_cells.specs.Sited.{sited};
ghost use Rattle.site_cells.specs.Changing.{IsKind, IsAtomic, taken_by, HoldsOperands};
ghost use Rattle.site_cells.specs.Words.{HasNumber};

use crate::access::{access_answer, place, push_access};
use crate::here::Here;
use crate::numbers::number_in;
use crate::sizes::are_whole;
use cell_core::cell::Cell;
use cell_core::site::{Act, Atomic, Site};
use cell_core::xdp_state::bpf_isa::{Insn, Op, Size};
use cell_core::xdp_state::memory::bytes_in;
use cell_core::xdp_state::xdp_maps::change::ChangeKind;
use cell_core::xdp_state::xdp_maps::decl::MapDecl;
use kind_core::{Kind, Kinds};
use operator_cells::cells::constant;
use operator_cells::held_cells::machine_cells::{Pointer, RegisterCells};
use std::alloc::AllocError;

/// The cells of the source of a change, and of what is compared: of 0 where nothing is.
#[derive(Copy, Clone)]
pub(crate) struct Operands {
    pub(crate) source: u32,
    pub(crate) compared: u32,
}

// Whether an atomic change compares with R0.
fn compares(insn: &Insn) -> bool
    ensures { result ≡ compares insn.now }
{
    let code = insn.imm.cast_unsigned();
    code - code % 2 == 0xf0
}

// Whether it fetches the old number.
fn fetches(insn: &Insn) -> bool
    ensures { result ≡ fetches (cast_unsigned w64 insn.now.imm) }
{
    insn.imm.cast_unsigned() % 2 == 1
}

// The kind of change.
fn kind_of(insn: &Insn) -> ChangeKind
    ensures { IsKind insn.now result }
{
    let code = insn.imm.cast_unsigned();
    match code - code % 2 {
        0x40 => ChangeKind::Or,
        0x50 => ChangeKind::And,
        0xa0 => ChangeKind::Xor,
        0xe0 => ChangeKind::Xchg,
        0xf0 => ChangeKind::Cmpxchg,
        _ => ChangeKind::Add,
    }
}

// The change, and whether it answers the old number.
fn atomic_of(insn: &Insn, size: Size) -> Atomic
    ensures { IsAtomic insn.now size result }
{
    let kind = kind_of(insn);
    let fetch = match kind {
        ChangeKind::Cmpxchg => true,
        _ => fetches(insn),
    };
    Atomic {
        kind,
        wide: matches!(size, Size::Dw),
        fetch,
    }
}

// Where the old number goes, if it goes anywhere.
fn taken_by(insn: &Insn) -> Option<u8>
    ensures { result ≡ taken_by insn.now }
{
    if compares(insn) {
        Some(0)
    } else if fetches(insn) {
        Some(insn.src)
    } else {
        None
    }
}

// The operands of a change.
fn operands_of(
    cells: &mut Vec<Cell>,
    kinds: &Kinds,
    held: &RegisterCells,
    insn: &Insn,
) -> Result<Operands, AllocError>
    requires src { insn.now.src ≤ 10 }
    requires source { HasNumber (length (seen cells.old.items)) (kind.register kinds.now insn.now.src) (slice_index held.now.registers insn.now.src) }
    requires compared { HasNumber (length (seen cells.old.items)) (kind.register kinds.now 0) (slice_index held.now.registers 0) }
    ensures holds { IfOk result (λ o. HoldsOperands kinds.now held.now insn.now (seen cells.old.items) (seen cells.new.items) o.source o.compared) }
    ensures rises { (ps : List PointerView) → IfOk result (λ o. RiseAll (seen cells.old.items) (seen cells.new.items) (o.source ∷ o.compared ∷ []) (λ row. spans_row (held_row row ps held.now kinds.now) (one insn.now.src ∷ compared_span insn.now ∷ []))) }
{
    let from = kinds.registers[insn.src as usize];
    let source = number_in(cells, from, held.registers[insn.src as usize])?;
    let compared = if compares(insn) {
        number_in(cells, kinds.registers[0], held.registers[0])?
    } else {
        constant(cells, 0, 64)?
    };
    Ok(Operands { source, compared })
}

/// An atomic change: the old number goes into R0 where the change compares, else into the source where it is fetched.
pub fn operate_atomic(
    cells: &mut Vec<Cell>,
    pointers: &[Pointer],
    sites: &mut Vec<Site>,
    held: &mut RegisterCells,
    kinds: &Kinds,
    insn: &Insn,
    decls: &[MapDecl],
    here: Here,
    size: Size,
) -> Result<(), AllocError>
    requires insn { IsInsn insn.now }
    requires op { insn.now.op ≡ Op.Atomic size }
    requires base { (q : ℕ) × (o : ℕ) × (kind.register kinds.now insn.now.dst ≡ kind_is.Entry q o) }
    requires values { (q : ℕ) → kind.value_bytes decls.now q ≤ 64 }
    requires pending { here.pending < length (seen cells.old.items) }
    requires guard { here.guard < length (seen cells.old.items) }
    requires inside { AreInside decls.now (length (seen cells.old.items)) (pointed pointers.now) held.old kinds.now }
    ensures operates { (is_ref taken : Bool) → verdict (effect_of decls.now kinds.now insn.now) ≡ passed → OnOk result (Operates decls.now insn.now here.node here.guard is_ref taken kinds.now held.old held.new (seen cells.old.items) (seen cells.new.items) (pointed pointers.now) (pointed pointers.now) (sited sites.old.items) (sited sites.new.items)) }
    ensures rows { (is_ref : Bool) → verdict (effect_of decls.now kinds.now insn.now) ≡ passed → OnOk result (OperatesTo decls.now insn.now here.pending kinds.now held.old (transferred decls.now kinds.now insn.now here.node is_ref false) held.new (seen cells.old.items) (seen cells.new.items) (pointed pointers.now) (pointed pointers.now) (sited sites.old.items) (sited sites.new.items)) }
    ensures points { (is_ref : Bool) → verdict (effect_of decls.now kinds.now insn.now) ≡ passed → OnOk result (OperationPoints decls.now insn.now here.pending kinds.now held.old (transferred decls.now kinds.now insn.now here.node is_ref false) held.new (seen cells.old.items) (seen cells.new.items) (pointed pointers.now) (pointed pointers.now) (sited sites.old.items) (sited sites.new.items)) }
{
    are_whole(held, kinds);
    if let Kind::Entry(map, o) = kinds.registers[insn.dst as usize] {
        let at = place(decls, map, o, insn.offset, size);
        let act = Act::Atomic(at, atomic_of(insn, size));
        let pointer = &pointers[held.registers[insn.dst as usize] as usize];
        let own = operands_of(cells, kinds, held, insn)?;
        let all = [own.source, own.compared];
        match taken_by(insn) {
            Some(register) => {
                let width = 8 * bytes_in(size) as u32;
                let c = access_answer(cells, sites, here, map, act, pointer, &all, width)?;
                held.registers[register as usize] = c;
            }
            None => push_access(sites, here, map, act, pointer, &all)?,
        }
    }
    Ok(())
}
