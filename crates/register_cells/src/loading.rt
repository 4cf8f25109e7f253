//! Loads from the packet, the stack and the context.

ghost use Rattle.std.specs.Prelude.{◌≡◌, ◌≢◌, ◌≤◌, ◌+◌, ◌*◌, ◌/◌, ◌%◌, ℕ, ℤ, pos, Some, List, length, IfOk, IfSome, FitsSigned, ◌+ℤ◌};
ghost use Rattle.std.specs.Int.{w16};
ghost use Rattle.cell_core.specs.xdp_maps.declared.decl.MapDecl.{MapDecl};
ghost use Rattle.cell_core.specs.xdp_machine.Memory.{bytes_in};
ghost use Rattle.cell_core.specs.xdp_machine.Memory as machine;
ghost use Rattle.cell_core.specs.xdp_machine.Arithmetic.{extended};
ghost use Rattle.cell_core.specs.xdp_machine.Values as is;
ghost use Rattle.kind_core.specs.Numbers.{number_extended};
ghost use Rattle.kind_core.specs.declared.kind.Kind.TheVariants as kind_is;
ghost use Rattle.kind_core.specs.Access as access;
ghost use Rattle.kind_core.specs.Kinds.{register};
ghost use Rattle.kind_core.specs.declared.kind.Kinds.{Kinds};
ghost use Rattle.operator_cells.specs.declared.held_cells.machine_cells.RegisterCells.{RegisterCells};
ghost use Rattle.cell_core.specs.Formed.{AreFormed};
ghost use Rattle.operator_cells.specs.Making.{seen};
ghost use Rattle.operator_cells.specs.HeldCells.RegisterCells.{PointerView, AreInside, Counts, number_of};
ghost use Rattle.operator_cells.specs.HeldCells.Carrying.{Gives};
ghost use Rattle.register_cells.specs.Reading.{HasNumber, Yields, Finds};
ghost use Rattle.register_cells.specs.Giving.{given};
ghost use Rattle.register_cells.specs.Rows.{ValueTo};
ghost use Rattle.register_cells.specs.Pointing.{MovesPointer, MovesHeld};
ghost use Rattle.operator_cells.specs.HeldCells.Rows.{number_row, value_row, held_row};
ghost use Rattle.operator_cells.specs.row_rules.PlaceRows.Spans.{region, span_row};
ghost use Rattle.operator_cells.specs.row_rules.PlaceRows.Reading.{result_as};

use crate::computing::parted;
use crate::sizes::are_whole;
use cell_core::cell::Cell;
use cell_core::operator::Operator;
use cell_core::xdp_state::bpf_isa::{Insn, Op, Size, Width};
use cell_core::xdp_state::memory::{aligned, bytes_in, inside};
use kind_core::number::any_bytes;
use kind_core::{Kind, Kinds, Number};
use operator_cells::cells::{constant, operate};
use operator_cells::held_cells::machine_cells::RegisterCells;
use operator_cells::slicing::{copy, extend, join_bytes};
use std::alloc::AllocError;

// A slot that is read whole: its number goes into a new cell.
pub(crate) fn whole(cells: &mut Vec<Cell>, kind: Kind, p: u32) -> Result<u32, AllocError>
    requires formed { AreFormed (seen cells.old.items) }
    requires there { HasNumber (length (seen cells.old.items)) kind p }
    ensures yields { (decls : List MapDecl) (ps : List PointerView) → Counts decls (length (seen cells.old.items)) ps kind p → IfOk result (λ c. Yields decls ps kind p kind p (seen cells.old.items) (seen cells.new.items) kind c (λ s t. Some t)) }
    ensures rows { (ps : List PointerView) → IfOk result (λ c. ValueTo (seen cells.old.items) (seen cells.new.items) ps kind c (λ row. value_row row ps kind p)) }
    ensures points { IfOk result (λ c. MovesPointer kind p kind c) }
{
    match kind {
        Kind::Num(Number::Between(_, _)) => {
            let c = copy(cells, p)?;
            Ok(c)
        }
        _ => Ok(p),
    }
}

// Bytes of a slot.
fn from_slot(
    cells: &mut Vec<Cell>,
    size: Size,
    at: u32,
    kind: Kind,
    p: u32,
) -> Result<u32, AllocError>
    requires formed { AreFormed (seen cells.old.items) }
    requires there { HasNumber (length (seen cells.old.items)) kind p }
    requires slot { at + bytes_in size ≤ 8 }
    ensures yields { (decls : List MapDecl) (ps : List PointerView) → Counts decls (length (seen cells.old.items)) ps kind p → IfOk (access.from_slot size at kind) (λ x. IfOk result (λ c. Yields decls ps kind p kind p (seen cells.old.items) (seen cells.new.items) x c (λ s t. machine.from_slot size at t))) }
    ensures rows { (ps : List PointerView) → IfOk (access.from_slot size at kind) (λ x. IfOk result (λ c. ValueTo (seen cells.old.items) (seen cells.new.items) ps x c (λ row. value_row row ps kind p))) }
    ensures points { IfOk (access.from_slot size at kind) (λ x. IfOk result (λ c. MovesPointer kind p x c)) }
{
    match size {
        Size::Dw => {
            let c = whole(cells, kind, p)?;
            Ok(c)
        }
        _ => match kind {
            Kind::Num(n) => {
                let c = parted(cells, size, at, n, p)?;
                Ok(c)
            }
            _ => Ok(0),
        },
    }
}

// Where an access to the packet begins, if it lies in its first 256 bytes.
pub(crate) fn packet_at(o: u16, offset: i16, size: Size) -> Option<usize>
    ensures value { result ≡ machine.inside (pos o +ℤ offset) (bytes_in size) 256 }
    ensures within { IfSome result (λ a. a + bytes_in size ≤ 256) }
{
    inside(i128::from(o) + i128::from(offset), bytes_in(size), 256)
}

// Where an access to the stack begins, from its lowest byte: it lies in one slot.
fn stack_at(o: i16, offset: i16, size: Size) -> Option<usize>
    ensures value { result ≡ machine.in_stack (o +ℤ offset) (bytes_in size) }
    ensures within { IfSome result (λ a. a + bytes_in size ≤ 512) }
    ensures slot { IfSome result (λ a. a % 8 + bytes_in size ≤ 8) }
{
    let z = i128::from(o) + i128::from(offset);
    aligned(z + 512, bytes_in(size), 512)
}

// The same of a kind.
pub(crate) fn slot_at(base: Kind, offset: i16, size: Size) -> Option<usize>
    ensures value { (o : ℤ) → base ≡ kind_is.Stack o → result ≡ machine.in_stack (o +ℤ offset) (bytes_in size) }
    ensures within { IfSome result (λ a. a + bytes_in size ≤ 512) }
    ensures slot { IfSome result (λ a. a % 8 + bytes_in size ≤ 8) }
{
    match base {
        Kind::Stack(o) => stack_at(o, offset, size),
        _ => None,
    }
}

// Bytes of the stack.
fn from_stack(
    cells: &mut Vec<Cell>,
    held: &RegisterCells,
    kinds: &Kinds,
    base: Kind,
    offset: i16,
    size: Size,
) -> Result<u32, AllocError>
    requires formed { AreFormed (seen cells.old.items) }
    requires inside { (decls : List MapDecl) × (ps : List PointerView) × AreInside decls (length (seen cells.old.items)) ps held.now kinds.now }
    ensures gives { (decls : List MapDecl) (ps : List PointerView) (node : ℕ) (o : ℤ) → base ≡ kind_is.Stack o → AreInside decls (length (seen cells.old.items)) ps held.now kinds.now → IfOk (access.loaded decls kinds.now (kind_is.Stack o) offset size) (λ x. IfOk result (λ c. Gives decls ps node kinds.now held.now (seen cells.old.items) (seen cells.new.items) x c (λ m. machine.loaded m (is.Stack o) offset size))) }
    ensures rows { (decls : List MapDecl) (ps : List PointerView) (o : ℤ) → base ≡ kind_is.Stack o → IfOk (access.loaded decls kinds.now (kind_is.Stack o) offset size) (λ x. IfOk result (λ c. ValueTo (seen cells.old.items) (seen cells.new.items) ps x c (λ row. span_row (held_row row ps held.now kinds.now) (region (kind_is.Stack o) offset (bytes_in size))))) }
    ensures points { (decls : List MapDecl) (o : ℤ) → base ≡ kind_is.Stack o → IfOk (access.loaded decls kinds.now (kind_is.Stack o) offset size) (λ x. IfOk result (λ c. MovesHeld kinds.now held.now x c)) }
{
    match slot_at(base, offset, size) {
        Some(at) => {
            let slot = at / 8;
            let c = from_slot(
                cells,
                size,
                (at % 8) as u32,
                kinds.slots[slot],
                held.slots[slot],
            )?;
            Ok(c)
        }
        None => Ok(0),
    }
}

// Bytes of the packet, the lowest first.
fn from_packet(
    cells: &mut Vec<Cell>,
    held: &RegisterCells,
    kinds: &Kinds,
    o: u16,
    offset: i16,
    size: Size,
) -> Result<u32, AllocError>
    requires inside { (decls : List MapDecl) × (ps : List PointerView) × AreInside decls (length (seen cells.old.items)) ps held.now kinds.now }
    ensures gives { (decls : List MapDecl) (ps : List PointerView) (node : ℕ) → IfOk (access.loaded decls kinds.now (kind_is.Packet o) offset size) (λ x. IfOk result (λ c. Gives decls ps node kinds.now held.now (seen cells.old.items) (seen cells.new.items) x c (λ m. machine.loaded m (is.Packet (pos o)) offset size))) }
    ensures rows { (decls : List MapDecl) (ps : List PointerView) → IfOk (access.loaded decls kinds.now (kind_is.Packet o) offset size) (λ x. IfOk result (λ c. ValueTo (seen cells.old.items) (seen cells.new.items) ps x c (λ row. span_row (held_row row ps held.now kinds.now) (region (kind_is.Packet o) offset (bytes_in size))))) }
{
    are_whole(held, kinds);
    match packet_at(o, offset, size) {
        Some(at) => {
            let c = join_bytes(cells, &held.window[at..at + bytes_in(size)])?;
            Ok(c)
        }
        None => Ok(0),
    }
}

// A field of the context.
fn from_context(cells: &mut Vec<Cell>, offset: i16, size: Size) -> Result<u32, AllocError>
    ensures gives { (decls : List MapDecl) (ps : List PointerView) (node : ℕ) (k : Kinds) (h : RegisterCells) → IfOk (access.from_context offset size) (λ x. IfOk result (λ c. Gives decls ps node k h (seen cells.old.items) (seen cells.new.items) x c (λ m. machine.loaded_plain m is.Context offset size))) }
    ensures rows { (ps : List PointerView) → IfOk (access.from_context offset size) (λ x. IfOk result (λ c. ValueTo (seen cells.old.items) (seen cells.new.items) ps x c (λ row. 0))) }
{
    if offset == 12 {
        let c = operate(cells, Operator::Ifindex, &[], 0, 32)?;
        return Ok(c);
    }
    let c = constant(cells, 0, 32)?;
    Ok(c)
}

/// MEM, but for entries of maps.
pub fn loaded_plain(
    cells: &mut Vec<Cell>,
    held: &RegisterCells,
    kinds: &Kinds,
    insn: &Insn,
    size: Size,
) -> Result<u32, AllocError>
    requires src { insn.now.src ≤ 10 }
    requires offset { FitsSigned w16 insn.now.offset }
    requires formed { AreFormed (seen cells.old.items) }
    requires inside { (decls : List MapDecl) × (ps : List PointerView) × AreInside decls (length (seen cells.old.items)) ps held.now kinds.now }
    requires plain { (q o : ℕ) → register kinds.now insn.now.src ≢ kind_is.Entry q o }
    ensures gives { (decls : List MapDecl) (ps : List PointerView) (refs : List ℕ) (node : ℕ) → AreInside decls (length (seen cells.old.items)) ps held.now kinds.now → IfOk (access.loaded_plain decls kinds.now (register kinds.now insn.now.src) insn.now.offset size) (λ x. IfOk result (λ c. Gives decls ps node kinds.now held.now (seen cells.old.items) (seen cells.new.items) x c (λ m. given refs m insn.now (Op.Load size)))) }
    ensures rows { (decls : List MapDecl) (ps : List PointerView) (after : Kinds) → IfOk (access.loaded_plain decls kinds.now (register kinds.now insn.now.src) insn.now.offset size) (λ x. IfOk result (λ c. ValueTo (seen cells.old.items) (seen cells.new.items) ps x c (λ row. result_as (held_row row ps held.now kinds.now) decls kinds.now after insn.now (Op.Load size)))) }
    ensures points { (decls : List MapDecl) → IfOk (access.loaded_plain decls kinds.now (register kinds.now insn.now.src) insn.now.offset size) (λ x. IfOk result (λ c. MovesHeld kinds.now held.now x c)) }
{
    let base = kinds.registers[insn.src as usize];
    match base {
        Kind::Ctx => {
            let c = from_context(cells, insn.offset, size)?;
            Ok(c)
        }
        Kind::Packet(o) => {
            let c = from_packet(cells, held, kinds, o, insn.offset, size)?;
            Ok(c)
        }
        Kind::Stack(_) => {
            let c = from_stack(cells, held, kinds, base, insn.offset, size)?;
            Ok(c)
        }
        _ => Ok(0),
    }
}

// A number that was loaded, with its sign extended to 64 bits.
fn signed(cells: &mut Vec<Cell>, size: Size, kind: Kind, p: u32) -> Result<u32, AllocError>
    requires { HasNumber (length (seen cells.old.items)) kind p }
    ensures finds { (n : Number) → kind ≡ kind_is.Num n → IfOk result (λ c. Finds (seen cells.old.items) (seen cells.new.items) (number_extended Width.Bits64 (8 * bytes_in size) n) c (λ packet v. extended 64 (8 * bytes_in size) (number_of v n p))) }
    ensures rows { (ps : List PointerView) (n : Number) → kind ≡ kind_is.Num n → IfOk result (λ c. ValueTo (seen cells.old.items) (seen cells.new.items) ps (kind_is.Num (number_extended Width.Bits64 (8 * bytes_in size) n)) c (λ row. number_row row n p)) }
{
    match kind {
        Kind::Num(Number::Between(_, _)) => {
            let c = extend(cells, Width::Bits64, 8 * bytes_in(size) as u32, p)?;
            Ok(c)
        }
        _ => Ok(0),
    }
}

// A signed number of the stack.
fn signed_from_stack(
    cells: &mut Vec<Cell>,
    held: &RegisterCells,
    kinds: &Kinds,
    base: Kind,
    offset: i16,
    size: Size,
) -> Result<u32, AllocError>
    requires formed { AreFormed (seen cells.old.items) }
    requires inside { (decls : List MapDecl) × (ps : List PointerView) × AreInside decls (length (seen cells.old.items)) ps held.now kinds.now }
    ensures gives { (decls : List MapDecl) (ps : List PointerView) (node : ℕ) (o : ℤ) → base ≡ kind_is.Stack o → AreInside decls (length (seen cells.old.items)) ps held.now kinds.now → IfOk (access.loaded_signed decls kinds.now (kind_is.Stack o) offset size) (λ x. IfOk result (λ c. Gives decls ps node kinds.now held.now (seen cells.old.items) (seen cells.new.items) x c (λ m. machine.loaded_signed m (is.Stack o) offset size))) }
    ensures rows { (decls : List MapDecl) (ps : List PointerView) (o : ℤ) → base ≡ kind_is.Stack o → IfOk (access.loaded_signed decls kinds.now (kind_is.Stack o) offset size) (λ x. IfOk result (λ c. ValueTo (seen cells.old.items) (seen cells.new.items) ps x c (λ row. span_row (held_row row ps held.now kinds.now) (region (kind_is.Stack o) offset (bytes_in size))))) }
{
    match slot_at(base, offset, size) {
        Some(at) => {
            let kind = kinds.slots[at / 8];
            let p = from_slot(cells, size, (at % 8) as u32, kind, held.slots[at / 8])?;
            let c = signed(cells, size, kind, p)?;
            Ok(c)
        }
        None => Ok(0),
    }
}

// A signed number of the packet.
fn signed_from_packet(
    cells: &mut Vec<Cell>,
    held: &RegisterCells,
    kinds: &Kinds,
    o: u16,
    offset: i16,
    size: Size,
) -> Result<u32, AllocError>
    requires inside { (decls : List MapDecl) × (ps : List PointerView) × AreInside decls (length (seen cells.old.items)) ps held.now kinds.now }
    ensures gives { (decls : List MapDecl) (ps : List PointerView) (node : ℕ) → IfOk (access.loaded_signed decls kinds.now (kind_is.Packet o) offset size) (λ x. IfOk result (λ c. Gives decls ps node kinds.now held.now (seen cells.old.items) (seen cells.new.items) x c (λ m. machine.loaded_signed m (is.Packet (pos o)) offset size))) }
    ensures rows { (decls : List MapDecl) (ps : List PointerView) → IfOk (access.loaded_signed decls kinds.now (kind_is.Packet o) offset size) (λ x. IfOk result (λ c. ValueTo (seen cells.old.items) (seen cells.new.items) ps x c (λ row. span_row (held_row row ps held.now kinds.now) (region (kind_is.Packet o) offset (bytes_in size))))) }
{
    are_whole(held, kinds);
    match packet_at(o, offset, size) {
        Some(at) => {
            let p = join_bytes(cells, &held.window[at..at + bytes_in(size)])?;
            let c = signed(cells, size, Kind::Num(any_bytes(size)), p)?;
            Ok(c)
        }
        None => Ok(0),
    }
}

/// MEMSX, but for entries of maps.
pub fn loaded_signed(
    cells: &mut Vec<Cell>,
    held: &RegisterCells,
    kinds: &Kinds,
    insn: &Insn,
    size: Size,
) -> Result<u32, AllocError>
    requires src { insn.now.src ≤ 10 }
    requires offset { FitsSigned w16 insn.now.offset }
    requires formed { AreFormed (seen cells.old.items) }
    requires inside { (decls : List MapDecl) × (ps : List PointerView) × AreInside decls (length (seen cells.old.items)) ps held.now kinds.now }
    requires plain { (q o : ℕ) → register kinds.now insn.now.src ≢ kind_is.Entry q o }
    ensures gives { (decls : List MapDecl) (ps : List PointerView) (refs : List ℕ) (node : ℕ) → AreInside decls (length (seen cells.old.items)) ps held.now kinds.now → IfOk (access.loaded_signed decls kinds.now (register kinds.now insn.now.src) insn.now.offset size) (λ x. IfOk result (λ c. Gives decls ps node kinds.now held.now (seen cells.old.items) (seen cells.new.items) x c (λ m. given refs m insn.now (Op.LoadSigned size)))) }
    ensures rows { (decls : List MapDecl) (ps : List PointerView) (after : Kinds) → IfOk (access.loaded_signed decls kinds.now (register kinds.now insn.now.src) insn.now.offset size) (λ x. IfOk result (λ c. ValueTo (seen cells.old.items) (seen cells.new.items) ps x c (λ row. result_as (held_row row ps held.now kinds.now) decls kinds.now after insn.now (Op.LoadSigned size)))) }
{
    let base = kinds.registers[insn.src as usize];
    match base {
        Kind::Packet(o) => {
            let c = signed_from_packet(cells, held, kinds, o, insn.offset, size)?;
            Ok(c)
        }
        Kind::Stack(_) => {
            let c = signed_from_stack(cells, held, kinds, base, insn.offset, size)?;
            Ok(c)
        }
        _ => Ok(0),
    }
}
