//! Instructions that neither jump nor end, and operate on no map.

ghost use Rattle.std.specs.Prelude.{◌≡◌, true, false, ℕ, Bool, List, length, OnOk, ◌≤◌};
ghost use Rattle.cell_core.specs.bpf_isa.Spelling.{IsInsn};
ghost use Rattle.cell_core.specs.xdp_maps.declared.decl.MapDecl.{MapDecl};
ghost use Rattle.kind_core.specs.Effects.{effect_of, verdict};
ghost use Rattle.kind_core.specs.Edges.{transferred};
ghost use Rattle.kind_core.specs.Soundness.{is_store};
ghost use Rattle.kind_core.specs.Tests.{passed};
ghost use Rattle.cell_core.specs.Formed.{AreFormed};
ghost use Rattle.operator_cells.specs.Making.{seen};
ghost use Rattle.operator_cells.specs.HeldCells.RegisterCells.{pointed, AreInside};
ghost use Rattle.operator_cells.specs.HeldCells.Carrying.{Carries};
ghost use Rattle.operator_cells.specs.HeldCells.Rows.{held_row, CarriesTo};
ghost use Rattle.operator_cells.specs.HeldCells.Pointing.{KeepPointers};
ghost use Rattle.register_cells.specs.Plain as spec;

use crate::helpers::{asks_no_map, carry_call};
use crate::registers::carry_register;
use crate::storing::carry_store;
use cell_core::cell::Cell;
use cell_core::xdp_state::bpf_isa::{Helper, Insn, Op};
use kind_core::{Kind, Kinds};
use operator_cells::held_cells::machine_cells::{Pointer, RegisterCells};
use std::alloc::AllocError;

// Whether it is a place in an entry of a map.
fn is_entry(kind: Kind) -> bool
    ensures { result ≡ spec.is_entry kind }
{
    matches!(kind, Kind::Entry(_, _))
}

// Whether an instruction stores.
fn is_store(insn: &Insn) -> bool
    ensures { result ≡ is_store insn.now.op }
{
    matches!(insn.op, Op::StoreImm(_) | Op::Store(_))
}

/// Whether an instruction neither jumps nor ends, and operates on no map.
pub fn is_plain(kinds: &Kinds, insn: &Insn) -> bool
    requires { IsInsn insn.now }
    ensures { result ≡ spec.is_plain kinds.now insn.now }
{
    match insn.op {
        Op::Alu(_, _, _) | Op::Neg(_) | Op::End(_) | Op::Swap | Op::LoadImm => true,
        Op::Load(_) | Op::LoadSigned(_) => !is_entry(kinds.registers[insn.src as usize]),
        Op::StoreImm(_) | Op::Store(_) => !is_entry(kinds.registers[insn.dst as usize]),
        Op::Call => asks_no_map(Helper::of(insn.imm)),
        _ => false,
    }
}

/// An instruction that neither jumps nor ends, and operates on no map: its cells, and what they hold.
pub fn carry_plain(
    cells: &mut Vec<Cell>,
    pointers: &[Pointer],
    held: &mut RegisterCells,
    kinds: &Kinds,
    insn: &Insn,
) -> Result<(), AllocError>
    requires insn { IsInsn insn.now }
    requires plain { spec.is_plain kinds.now insn.now ≡ true }
    requires formed { AreFormed (seen cells.old.items) }
    requires inside { (decls : List MapDecl) × AreInside decls (length (seen cells.old.items)) (pointed pointers.now) held.old kinds.now }
    ensures carries { (decls : List MapDecl) (node : ℕ) (is_ref : Bool) → verdict (effect_of decls kinds.now insn.now) ≡ passed → AreInside decls (length (seen cells.old.items)) (pointed pointers.now) held.old kinds.now → OnOk result (Carries decls (pointed pointers.now) insn.now node is_ref false kinds.now held.old held.new (seen cells.old.items) (seen cells.new.items)) }
    ensures rows { (decls : List MapDecl) (node : ℕ) (is_ref : Bool) → verdict (effect_of decls kinds.now insn.now) ≡ passed → OnOk result (CarriesTo decls (λ row. held_row row (pointed pointers.now) held.old kinds.now) (pointed pointers.now) insn.now kinds.now held.old (transferred decls kinds.now insn.now node is_ref false) held.new (seen cells.old.items) (seen cells.new.items)) }
    ensures points { (decls : List MapDecl) (node : ℕ) (is_ref : Bool) → verdict (effect_of decls kinds.now insn.now) ≡ passed → OnOk result (KeepPointers kinds.now held.old (transferred decls kinds.now insn.now node is_ref false) held.new) }
{
    if is_store(insn) {
        return carry_store(cells, pointers, held, kinds, insn);
    }
    match insn.op {
        Op::Call => carry_call(cells, held, kinds, insn),
        _ => carry_register(cells, held, kinds, insn),
    }
}
