//! Instructions that write their destination.

ghost use Rattle.std.specs.Prelude.{◌≡◌, ◌≢◌, ◌<◌, ◌≤◌, ◌⊎◌, ◌+◌, true, false, ℕ, Bool, List, length, slice_index, IfOk, OnOk, unsigned_abs};
ghost use Rattle.cell_core.specs.bpf_isa.Spelling.{IsInsn};
ghost use Rattle.cell_core.specs.xdp_machine.Arithmetic.{bits_in, negated, ordered};
ghost use Rattle.cell_core.specs.xdp_maps.declared.decl.MapDecl.{MapDecl};
ghost use Rattle.cell_core.specs.xdp_machine.State.{register};
ghost use Rattle.kind_core.specs.Effects.{operand, renumbered, alu, effect_of, verdict};
ghost use Rattle.kind_core.specs.Edges.{transferred};
ghost use Rattle.kind_core.specs.Numbers.{number_negated, number_ordered};
ghost use Rattle.kind_core.specs.Kinds as kind;
ghost use Rattle.kind_core.specs.declared.kind.Kind.TheVariants as kind_is;
ghost use Rattle.kind_core.specs.Profile.{writes_destination};
ghost use Rattle.kind_core.specs.Tests.{passed};
ghost use Rattle.cell_core.specs.Formed.{AreFormed};
ghost use Rattle.operator_cells.specs.Making.{seen};
ghost use Rattle.operator_cells.specs.HeldCells.RegisterCells.{PointerView, AreInside};
ghost use Rattle.operator_cells.specs.HeldCells.Carrying.{Gives, Carries};
ghost use Rattle.operator_cells.specs.HeldCells.Rows.{held_row, CarriesTo};
ghost use Rattle.operator_cells.specs.HeldCells.Pointing.{KeepPointers};
ghost use Rattle.operator_cells.specs.row_rules.PlaceRows.Reading.{result_as, result_row};
ghost use Rattle.register_cells.specs.Rows.{ValueTo};
ghost use Rattle.register_cells.specs.Pointing.{MovesHeld};
ghost use Rattle.register_cells.specs.Giving.{given, given_kind, given_number};
ghost use Rattle.cell_core.specs.bpf_isa.Rules.{Allows};
ghost use Rattle.cell_core.specs.bpf_isa.declared.fields.Rule.TheVariants.{SwapBits};

use crate::computing::{negated, ordered};
use crate::loading::{loaded_plain, loaded_signed};
use crate::moving::combined;
use crate::sizes::are_whole;
use cell_core::cell::Cell;
use cell_core::xdp_state::bpf_isa::{AluCode, Insn, Op, Size, Src, Width};
use kind_core::{Kind, Kinds, Number};
use operator_cells::held_cells::machine_cells::RegisterCells;
use std::alloc::AllocError;

// The kind of the second operand.
pub(crate) fn operand(kinds: &Kinds, insn: &Insn, src: Src) -> Kind
    requires { insn.now.src ≤ 10 }
    ensures { result ≡ operand kinds.now insn.now src }
{
    match src {
        Src::K => Kind::Num(Number::Known(insn.imm.cast_unsigned())),
        Src::X => kinds.registers[insn.src as usize],
    }
}

// What arithmetic with two operands gives.
fn combine(
    cells: &mut Vec<Cell>,
    held: &RegisterCells,
    kinds: &Kinds,
    insn: &Insn,
    width: Width,
    code: AluCode,
    src: Src,
) -> Result<u32, AllocError>
    requires insn { IsInsn insn.now }
    requires op { insn.now.op ≡ Op.Alu width code src }
    requires formed { AreFormed (seen cells.old.items) }
    requires inside { (decls : List MapDecl) × (ps : List PointerView) × AreInside decls (length (seen cells.old.items)) ps held.now kinds.now }
    ensures gives { (decls : List MapDecl) (ps : List PointerView) (refs : List ℕ) (node : ℕ) → AreInside decls (length (seen cells.old.items)) ps held.now kinds.now → IfOk (alu decls kinds.now insn.now (Op.Alu width code src)) (λ x. IfOk result (λ c. Gives decls ps node kinds.now held.now (seen cells.old.items) (seen cells.new.items) x c (λ m. given refs m insn.now (Op.Alu width code src)))) }
    ensures rows { (decls : List MapDecl) (ps : List PointerView) (after : Kinds) → IfOk (alu decls kinds.now insn.now (Op.Alu width code src)) (λ x. kind.register after insn.now.dst ≡ x → IfOk result (λ c. ValueTo (seen cells.old.items) (seen cells.new.items) ps x c (λ row. result_as (held_row row ps held.now kinds.now) decls kinds.now after insn.now (Op.Alu width code src)))) }
    ensures points { (decls : List MapDecl) → IfOk (alu decls kinds.now insn.now (Op.Alu width code src)) (λ x. IfOk result (λ c. MovesHeld kinds.now held.now x c)) }
{
    let a = kinds.registers[insn.dst as usize];
    let b = operand(kinds, insn, src);
    let p = held.registers[insn.dst as usize];
    let q = held.registers[insn.src as usize];
    let c = combined(cells, width, code, insn.offset, a, p, b, q)?;
    Ok(c)
}

// What the number in the destination with the other sign is.
fn negate(
    cells: &mut Vec<Cell>,
    held: &RegisterCells,
    kinds: &Kinds,
    insn: &Insn,
    width: Width,
) -> Result<u32, AllocError>
    requires dst { insn.now.dst ≤ 10 }
    requires formed { AreFormed (seen cells.old.items) }
    requires inside { (decls : List MapDecl) × (ps : List PointerView) × AreInside decls (length (seen cells.old.items)) ps held.now kinds.now }
    ensures gives { (decls : List MapDecl) (ps : List PointerView) (node : ℕ) → IfOk (renumbered kinds.now insn.now (number_negated width)) (λ x. IfOk result (λ c. Gives decls ps node kinds.now held.now (seen cells.old.items) (seen cells.new.items) x c (λ m. given_number m insn.now (negated (bits_in width))))) }
    ensures rows { (ps : List PointerView) → IfOk (renumbered kinds.now insn.now (number_negated width)) (λ x. IfOk result (λ c. ValueTo (seen cells.old.items) (seen cells.new.items) ps x c (λ row. held_row row ps held.now kinds.now insn.now.dst + 1))) }
{
    match kinds.registers[insn.dst as usize] {
        Kind::Num(x) => {
            let c = negated(cells, width, x, held.registers[insn.dst as usize])?;
            Ok(c)
        }
        _ => Ok(0),
    }
}

// The number in the destination with its low bytes in an order.
fn order(
    cells: &mut Vec<Cell>,
    held: &RegisterCells,
    kinds: &Kinds,
    insn: &Insn,
    end: Src,
) -> Result<u32, AllocError>
    requires dst { insn.now.dst ≤ 10 }
    requires bits { Allows SwapBits insn.now.imm }
    requires formed { AreFormed (seen cells.old.items) }
    requires inside { (decls : List MapDecl) × (ps : List PointerView) × AreInside decls (length (seen cells.old.items)) ps held.now kinds.now }
    ensures gives { (most : ℕ) (decls : List MapDecl) (ps : List PointerView) (node : ℕ) → IfOk (renumbered kinds.now insn.now (number_ordered most end (unsigned_abs insn.now.imm))) (λ x. IfOk result (λ c. Gives decls ps node kinds.now held.now (seen cells.old.items) (seen cells.new.items) x c (λ m. given_number m insn.now (ordered end (unsigned_abs insn.now.imm))))) }
    ensures rows { (most : ℕ) (ps : List PointerView) → IfOk (renumbered kinds.now insn.now (number_ordered most end (unsigned_abs insn.now.imm))) (λ x. IfOk result (λ c. ValueTo (seen cells.old.items) (seen cells.new.items) ps x c (λ row. held_row row ps held.now kinds.now insn.now.dst))) }
{
    match kinds.registers[insn.dst as usize] {
        Kind::Num(x) => {
            let c = ordered(
                cells,
                end,
                insn.imm as u32,
                x,
                held.registers[insn.dst as usize],
            )?;
            Ok(c)
        }
        _ => Ok(0),
    }
}

// What an instruction that is no load puts into its destination.
fn give(
    cells: &mut Vec<Cell>,
    held: &RegisterCells,
    kinds: &Kinds,
    insn: &Insn,
) -> Result<u32, AllocError>
    requires insn { IsInsn insn.now }
    requires formed { AreFormed (seen cells.old.items) }
    requires inside { (decls : List MapDecl) × (ps : List PointerView) × AreInside decls (length (seen cells.old.items)) ps held.now kinds.now }
    requires plain { (size : Size) → (insn.now.op ≢ Op.Load size) × (insn.now.op ≢ Op.LoadSigned size) }
    ensures gives { (decls : List MapDecl) (ps : List PointerView) (refs : List ℕ) (node : ℕ) (is_ref : Bool) → AreInside decls (length (seen cells.old.items)) ps held.now kinds.now → IfOk (given_kind is_ref decls kinds.now insn.now insn.now.op) (λ x. IfOk result (λ c. Gives decls ps node kinds.now held.now (seen cells.old.items) (seen cells.new.items) x c (λ m. given refs m insn.now insn.now.op))) }
    ensures rows { (decls : List MapDecl) (ps : List PointerView) (is_ref : Bool) (after : Kinds) → IfOk (given_kind is_ref decls kinds.now insn.now insn.now.op) (λ x. kind.register after insn.now.dst ≡ x → IfOk result (λ c. ValueTo (seen cells.old.items) (seen cells.new.items) ps x c (λ row. result_row (held_row row ps held.now kinds.now) decls kinds.now after insn.now))) }
    ensures points { (decls : List MapDecl) (is_ref : Bool) → IfOk (given_kind is_ref decls kinds.now insn.now insn.now.op) (λ x. IfOk result (λ c. MovesHeld kinds.now held.now x c)) }
{
    match insn.op {
        Op::Alu(width, code, src) => {
            let c = combine(cells, held, kinds, insn, width, code, src)?;
            Ok(c)
        }
        Op::Neg(width) => {
            let c = negate(cells, held, kinds, insn, width)?;
            Ok(c)
        }
        Op::End(end) => {
            let c = order(cells, held, kinds, insn, end)?;
            Ok(c)
        }
        Op::Swap => {
            let c = order(cells, held, kinds, insn, Src::X)?;
            Ok(c)
        }
        _ => Ok(0),
    }
}

/// An instruction that writes its destination, but for loads: its cells, and the destination's.
pub fn carry_computed(
    cells: &mut Vec<Cell>,
    held: &mut RegisterCells,
    kinds: &Kinds,
    insn: &Insn,
) -> Result<(), AllocError>
    requires insn { IsInsn insn.now }
    requires writes { writes_destination insn.now.op ≡ true }
    requires formed { AreFormed (seen cells.old.items) }
    requires inside { (decls : List MapDecl) × (ps : List PointerView) × AreInside decls (length (seen cells.old.items)) ps held.old kinds.now }
    requires plain { (size : Size) → (insn.now.op ≢ Op.Load size) × (insn.now.op ≢ Op.LoadSigned size) }
    ensures carries { (decls : List MapDecl) (ps : List PointerView) (node : ℕ) (is_ref : Bool) → verdict (effect_of decls kinds.now insn.now) ≡ passed → AreInside decls (length (seen cells.old.items)) ps held.old kinds.now → OnOk result (Carries decls ps insn.now node is_ref false kinds.now held.old held.new (seen cells.old.items) (seen cells.new.items)) }
    ensures rows { (decls : List MapDecl) (ps : List PointerView) (node : ℕ) (is_ref : Bool) → verdict (effect_of decls kinds.now insn.now) ≡ passed → OnOk result (CarriesTo decls (λ row. held_row row ps held.old kinds.now) ps insn.now kinds.now held.old (transferred decls kinds.now insn.now node is_ref false) held.new (seen cells.old.items) (seen cells.new.items)) }
    ensures points { (decls : List MapDecl) (node : ℕ) (is_ref : Bool) → verdict (effect_of decls kinds.now insn.now) ≡ passed → OnOk result (KeepPointers kinds.now held.old (transferred decls kinds.now insn.now node is_ref false) held.new) }
{
    are_whole(held, kinds);
    let c = give(cells, held, kinds, insn)?;
    held.registers[insn.dst as usize] = c;
    Ok(())
}

/// A load from the packet, the stack or the context: its cells, and the destination's.
pub fn carry_load(
    cells: &mut Vec<Cell>,
    held: &mut RegisterCells,
    kinds: &Kinds,
    insn: &Insn,
    size: Size,
) -> Result<(), AllocError>
    requires insn { IsInsn insn.now }
    requires op { insn.now.op ≡ Op.Load size }
    requires formed { AreFormed (seen cells.old.items) }
    requires inside { (decls : List MapDecl) × (ps : List PointerView) × AreInside decls (length (seen cells.old.items)) ps held.old kinds.now }
    requires plain { (q o : ℕ) → kind.register kinds.now insn.now.src ≢ kind_is.Entry q o }
    ensures carries { (decls : List MapDecl) (ps : List PointerView) (node : ℕ) (is_ref : Bool) → verdict (effect_of decls kinds.now insn.now) ≡ passed → AreInside decls (length (seen cells.old.items)) ps held.old kinds.now → OnOk result (Carries decls ps insn.now node is_ref false kinds.now held.old held.new (seen cells.old.items) (seen cells.new.items)) }
    ensures rows { (decls : List MapDecl) (ps : List PointerView) (node : ℕ) (is_ref : Bool) → verdict (effect_of decls kinds.now insn.now) ≡ passed → OnOk result (CarriesTo decls (λ row. held_row row ps held.old kinds.now) ps insn.now kinds.now held.old (transferred decls kinds.now insn.now node is_ref false) held.new (seen cells.old.items) (seen cells.new.items)) }
    ensures points { (decls : List MapDecl) (node : ℕ) (is_ref : Bool) → verdict (effect_of decls kinds.now insn.now) ≡ passed → OnOk result (KeepPointers kinds.now held.old (transferred decls kinds.now insn.now node is_ref false) held.new) }
{
    are_whole(held, kinds);
    let c = loaded_plain(cells, held, kinds, insn, size)?;
    held.registers[insn.dst as usize] = c;
    Ok(())
}

/// The same where the sign of what is loaded is extended.
pub fn carry_signed(
    cells: &mut Vec<Cell>,
    held: &mut RegisterCells,
    kinds: &Kinds,
    insn: &Insn,
    size: Size,
) -> Result<(), AllocError>
    requires insn { IsInsn insn.now }
    requires op { insn.now.op ≡ Op.LoadSigned size }
    requires formed { AreFormed (seen cells.old.items) }
    requires inside { (decls : List MapDecl) × (ps : List PointerView) × AreInside decls (length (seen cells.old.items)) ps held.old kinds.now }
    requires plain { (q o : ℕ) → kind.register kinds.now insn.now.src ≢ kind_is.Entry q o }
    ensures carries { (decls : List MapDecl) (ps : List PointerView) (node : ℕ) (is_ref : Bool) → verdict (effect_of decls kinds.now insn.now) ≡ passed → AreInside decls (length (seen cells.old.items)) ps held.old kinds.now → OnOk result (Carries decls ps insn.now node is_ref false kinds.now held.old held.new (seen cells.old.items) (seen cells.new.items)) }
    ensures rows { (decls : List MapDecl) (ps : List PointerView) (node : ℕ) (is_ref : Bool) → verdict (effect_of decls kinds.now insn.now) ≡ passed → OnOk result (CarriesTo decls (λ row. held_row row ps held.old kinds.now) ps insn.now kinds.now held.old (transferred decls kinds.now insn.now node is_ref false) held.new (seen cells.old.items) (seen cells.new.items)) }
    ensures points { (decls : List MapDecl) (node : ℕ) (is_ref : Bool) → verdict (effect_of decls kinds.now insn.now) ≡ passed → OnOk result (KeepPointers kinds.now held.old (transferred decls kinds.now insn.now node is_ref false) held.new) }
{
    are_whole(held, kinds);
    let c = loaded_signed(cells, held, kinds, insn, size)?;
    held.registers[insn.dst as usize] = c;
    Ok(())
}

/// An instruction that writes its destination and reads no entry of a map.
pub fn carry_register(
    cells: &mut Vec<Cell>,
    held: &mut RegisterCells,
    kinds: &Kinds,
    insn: &Insn,
) -> Result<(), AllocError>
    requires insn { IsInsn insn.now }
    requires writes { writes_destination insn.now.op ≡ true }
    requires formed { AreFormed (seen cells.old.items) }
    requires inside { (decls : List MapDecl) × (ps : List PointerView) × AreInside decls (length (seen cells.old.items)) ps held.old kinds.now }
    requires plain { (size : Size) (q o : ℕ) → (insn.now.op ≡ Op.Load size) ⊎ (insn.now.op ≡ Op.LoadSigned size) → kind.register kinds.now insn.now.src ≢ kind_is.Entry q o }
    ensures carries { (decls : List MapDecl) (ps : List PointerView) (node : ℕ) (is_ref : Bool) → verdict (effect_of decls kinds.now insn.now) ≡ passed → AreInside decls (length (seen cells.old.items)) ps held.old kinds.now → OnOk result (Carries decls ps insn.now node is_ref false kinds.now held.old held.new (seen cells.old.items) (seen cells.new.items)) }
    ensures rows { (decls : List MapDecl) (ps : List PointerView) (node : ℕ) (is_ref : Bool) → verdict (effect_of decls kinds.now insn.now) ≡ passed → OnOk result (CarriesTo decls (λ row. held_row row ps held.old kinds.now) ps insn.now kinds.now held.old (transferred decls kinds.now insn.now node is_ref false) held.new (seen cells.old.items) (seen cells.new.items)) }
    ensures points { (decls : List MapDecl) (node : ℕ) (is_ref : Bool) → verdict (effect_of decls kinds.now insn.now) ≡ passed → OnOk result (KeepPointers kinds.now held.old (transferred decls kinds.now insn.now node is_ref false) held.new) }
{
    match insn.op {
        Op::Load(size) => carry_load(cells, held, kinds, insn, size),
        Op::LoadSigned(size) => carry_signed(cells, held, kinds, insn, size),
        _ => carry_computed(cells, held, kinds, insn),
    }
}
