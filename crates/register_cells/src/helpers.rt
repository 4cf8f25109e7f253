//! The helpers that ask no map.

ghost use Rattle.std.specs.Prelude.{◌≡◌, ◌<◌, ◌+◌, ◌==◌, max, true, false, ℕ, Bool, List, length, if◌then◌else◌, IfOk, OnOk};
ghost use Rattle.cell_core.specs.bpf_isa.Helpers.{helper_of};
ghost use Rattle.cell_core.specs.xdp_maps.declared.decl.MapDecl.{MapDecl};
ghost use Rattle.cell_core.specs.xdp_machine.Arithmetic.{low};
ghost use Rattle.kind_core.specs.Effects.{effect_of, verdict};
ghost use Rattle.kind_core.specs.Edges.{transferred};
ghost use Rattle.kind_core.specs.Tests.{passed};
ghost use Rattle.cell_core.specs.Cells.{bit, on};
ghost use Rattle.cell_core.specs.Formed.{AreFormed};
ghost use Rattle.operator_cells.specs.Making.{seen, Makes, Grows};
ghost use Rattle.operator_cells.specs.Rising.{Rises};
ghost use Rattle.kind_core.specs.declared.kind.Kind.TheVariants as kind_is;
ghost use Rattle.kind_core.specs.declared.number.Number.{Number};
ghost use Rattle.register_cells.specs.Plain as spec;
ghost use Rattle.register_cells.specs.Reading.{HasNumber};
ghost use Rattle.operator_cells.specs.HeldCells.RegisterCells.{PointerView, AreInside, number_of, IsThere};
ghost use Rattle.operator_cells.specs.HeldCells.Carrying.{Carries};
ghost use Rattle.operator_cells.specs.HeldCells.Rows.{value_row, held_row, CarriesTo};
ghost use Rattle.operator_cells.specs.HeldCells.Pointing.{KeepPointers};

use crate::sizes::are_whole;
use cell_core::cell::Cell;
use cell_core::operator::Operator;
use cell_core::xdp_state::bpf_isa::{Helper, Insn, Op};
use kind_core::{Kind, Kinds, Number};
use operator_cells::cells::{constant, operate, slice};
use operator_cells::held_cells::machine_cells::RegisterCells;
use operator_cells::held_cells::operand::number_cell;
use std::alloc::AllocError;

/// Whether a helper asks no map.
pub fn asks_no_map(helper: Option<Helper>) -> bool
    ensures { result ≡ spec.asks_no_map helper }
{
    match helper {
        Some(Helper::Time) | Some(Helper::Redirect) => true,
        _ => false,
    }
}

// When the packet was captured; helpers answer a row later.
fn time(cells: &mut Vec<Cell>) -> Result<u32, AllocError>
    ensures makes { IfOk result (λ c. Makes (seen cells.old.items) (seen cells.new.items) c (λ packet v. low 64 packet.time)) }
    ensures rises { IfOk result (λ c. Rises (seen cells.old.items) (seen cells.new.items) c (λ row. 1)) }
{
    let now = operate(cells, Operator::Time, &[], 0, 64)?;
    let c = operate(cells, Operator::Later, &[now], 0, 64)?;
    Ok(c)
}

// The time: R0 gets that of the packet's capture.
fn carry_time(
    cells: &mut Vec<Cell>,
    held: &mut RegisterCells,
    kinds: &Kinds,
    insn: &Insn,
) -> Result<(), AllocError>
    requires op { insn.now.op ≡ Op.Call }
    requires helper { helper_of insn.now.imm ≡ Some Helper.Time }
    ensures carries { (decls : List MapDecl) (ps : List PointerView) (node : ℕ) (is_ref : Bool) → verdict (effect_of decls kinds.now insn.now) ≡ passed → AreInside decls (length (seen cells.old.items)) ps held.old kinds.now → OnOk result (Carries decls ps insn.now node is_ref false kinds.now held.old held.new (seen cells.old.items) (seen cells.new.items)) }
    ensures rows { (decls : List MapDecl) (ps : List PointerView) (node : ℕ) (is_ref : Bool) → verdict (effect_of decls kinds.now insn.now) ≡ passed → OnOk result (CarriesTo decls (λ row. held_row row ps held.old kinds.now) ps insn.now kinds.now held.old (transferred decls kinds.now insn.now node is_ref false) held.new (seen cells.old.items) (seen cells.new.items)) }
    ensures points { (decls : List MapDecl) (node : ℕ) (is_ref : Bool) → verdict (effect_of decls kinds.now insn.now) ≡ passed → OnOk result (KeepPointers kinds.now held.old (transferred decls kinds.now insn.now node is_ref false) held.new) }
{
    are_whole(held, kinds);
    let c = time(cells)?;
    held.registers[0] = c;
    Ok(())
}

// Whether a number is 0; it is there a row after all of these cells.
fn is_zero(cells: &mut Vec<Cell>, n: u32, interface: u32, target: u32) -> Result<u32, AllocError>
    requires number { n < length (seen cells.old.items) }
    requires interface { interface < length (seen cells.old.items) }
    requires target { target < length (seen cells.old.items) }
    ensures makes { IfOk result (λ c. Makes (seen cells.old.items) (seen cells.new.items) c (λ packet v. bit (low 64 (v n) == 0))) }
    ensures rises { IfOk result (λ c. Rises (seen cells.old.items) (seen cells.new.items) c (λ row. max (row n) (max (row interface) (row target)) + 1)) }
{
    let zero = constant(cells, 0, 1)?;
    let c = operate(cells, Operator::Equal, &[n, zero, interface, target], 0, 1)?;
    Ok(c)
}

// XDP_REDIRECT where a bit is 1, else XDP_ABORTED.
fn answer(cells: &mut Vec<Cell>, sent: u32) -> Result<u32, AllocError>
    requires { sent < length (seen cells.old.items) }
    ensures makes { IfOk result (λ c. Makes (seen cells.old.items) (seen cells.new.items) c (λ packet v. if on (v sent) then 4 else 0)) }
    ensures rises { IfOk result (λ c. Rises (seen cells.old.items) (seen cells.new.items) c (λ row. row sent)) }
{
    let redirect = constant(cells, 4, 3)?;
    let aborted = constant(cells, 0, 1)?;
    let c = operate(cells, Operator::Select, &[sent, redirect, aborted], 0, 3)?;
    Ok(c)
}

// The interface where a bit is 1, else the old target.
fn target(cells: &mut Vec<Cell>, sent: u32, interface: u32, old: u32) -> Result<u32, AllocError>
    requires sent { sent < length (seen cells.old.items) }
    requires interface { interface < length (seen cells.old.items) }
    requires old { old < length (seen cells.old.items) }
    ensures makes { IfOk result (λ c. Makes (seen cells.old.items) (seen cells.new.items) c (λ packet v. low 32 (if on (v sent) then v interface else v old))) }
    ensures rises { IfOk result (λ c. Rises (seen cells.old.items) (seen cells.new.items) c (λ row. max (row sent) (max (row interface) (row old)))) }
{
    let c = operate(cells, Operator::Select, &[sent, interface, old], 0, 32)?;
    Ok(c)
}

// The cell of a number by its kind, or of 0.
fn number_in(cells: &mut Vec<Cell>, kind: Kind, held: u32) -> Result<u32, AllocError>
    requires { HasNumber (length (seen cells.old.items)) kind held }
    ensures made { IfOk result (λ c. Grows (seen cells.old.items) (seen cells.new.items) × (c < length (seen cells.new.items))) }
    ensures number { (n : Number) → kind ≡ kind_is.Num n → IfOk result (λ c. Makes (seen cells.old.items) (seen cells.new.items) c (λ packet v. number_of v n held)) }
    ensures rises { (ps : List PointerView) → IfOk result (λ c. Rises (seen cells.old.items) (seen cells.new.items) c (λ row. value_row row ps kind held)) }
{
    match kind {
        Kind::Num(n) => {
            let c = number_cell(cells, n, held)?;
            Ok(c)
        }
        _ => {
            let c = constant(cells, 0, 1)?;
            Ok(c)
        }
    }
}

// A redirect: where its flags are 0, R0 gets XDP_REDIRECT and the target becomes the interface; else R0 gets XDP_ABORTED.
fn carry_redirect(
    cells: &mut Vec<Cell>,
    held: &mut RegisterCells,
    kinds: &Kinds,
    insn: &Insn,
) -> Result<(), AllocError>
    requires op { insn.now.op ≡ Op.Call }
    requires helper { helper_of insn.now.imm ≡ Some Helper.Redirect }
    requires formed { AreFormed (seen cells.old.items) }
    requires inside { (decls : List MapDecl) × (ps : List PointerView) × AreInside decls (length (seen cells.old.items)) ps held.old kinds.now }
    ensures carries { (decls : List MapDecl) (ps : List PointerView) (node : ℕ) (is_ref : Bool) → verdict (effect_of decls kinds.now insn.now) ≡ passed → AreInside decls (length (seen cells.old.items)) ps held.old kinds.now → OnOk result (Carries decls ps insn.now node is_ref false kinds.now held.old held.new (seen cells.old.items) (seen cells.new.items)) }
    ensures rows { (decls : List MapDecl) (ps : List PointerView) (node : ℕ) (is_ref : Bool) → verdict (effect_of decls kinds.now insn.now) ≡ passed → OnOk result (CarriesTo decls (λ row. held_row row ps held.old kinds.now) ps insn.now kinds.now held.old (transferred decls kinds.now insn.now node is_ref false) held.new (seen cells.old.items) (seen cells.new.items)) }
    ensures points { (decls : List MapDecl) (node : ℕ) (is_ref : Bool) → verdict (effect_of decls kinds.now insn.now) ≡ passed → OnOk result (KeepPointers kinds.now held.old (transferred decls kinds.now insn.now node is_ref false) held.new) }
{
    are_whole(held, kinds);
    let interface = number_in(cells, kinds.registers[1], held.registers[1])?;
    let flags = number_in(cells, kinds.registers[2], held.registers[2])?;
    let sent = is_zero(cells, flags, interface, held.target)?;
    let c = answer(cells, sent)?;
    let t = target(cells, sent, interface, held.target)?;
    held.registers[0] = c;
    held.target = t;
    Ok(())
}

/// A call of a helper that asks no map: its cells, and what they hold.
pub fn carry_call(
    cells: &mut Vec<Cell>,
    held: &mut RegisterCells,
    kinds: &Kinds,
    insn: &Insn,
) -> Result<(), AllocError>
    requires op { insn.now.op ≡ Op.Call }
    requires helper { spec.asks_no_map (helper_of insn.now.imm) ≡ true }
    requires formed { AreFormed (seen cells.old.items) }
    requires inside { (decls : List MapDecl) × (ps : List PointerView) × AreInside decls (length (seen cells.old.items)) ps held.old kinds.now }
    ensures carries { (decls : List MapDecl) (ps : List PointerView) (node : ℕ) (is_ref : Bool) → verdict (effect_of decls kinds.now insn.now) ≡ passed → AreInside decls (length (seen cells.old.items)) ps held.old kinds.now → OnOk result (Carries decls ps insn.now node is_ref false kinds.now held.old held.new (seen cells.old.items) (seen cells.new.items)) }
    ensures rows { (decls : List MapDecl) (ps : List PointerView) (node : ℕ) (is_ref : Bool) → verdict (effect_of decls kinds.now insn.now) ≡ passed → OnOk result (CarriesTo decls (λ row. held_row row ps held.old kinds.now) ps insn.now kinds.now held.old (transferred decls kinds.now insn.now node is_ref false) held.new (seen cells.old.items) (seen cells.new.items)) }
    ensures points { (decls : List MapDecl) (node : ℕ) (is_ref : Bool) → verdict (effect_of decls kinds.now insn.now) ≡ passed → OnOk result (KeepPointers kinds.now held.old (transferred decls kinds.now insn.now node is_ref false) held.new) }
{
    match Helper::known(insn.imm) {
        Helper::Time => carry_time(cells, held, kinds, insn),
        _ => carry_redirect(cells, held, kinds, insn),
    }
}
