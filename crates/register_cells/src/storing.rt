//! Stores into the stack and the packet.

ghost use Rattle.std.specs.Prelude.{◌≡◌, ◌≢◌, ◌<◌, ◌≤◌, ◌+◌, true, false, ℕ, ℤ, Bool, pos, Ok, List, length, IfOk, OnOk, max, slice_index};
ghost use Rattle.byteorder.specs.Endian.{little_number, little_bytes};
ghost use Rattle.cell_core.specs.bpf_isa.Spelling.{IsInsn};
ghost use Rattle.cell_core.specs.xdp_maps.declared.decl.MapDecl.{MapDecl};
ghost use Rattle.cell_core.specs.xdp_maps.Calls.{patched};
ghost use Rattle.cell_core.specs.xdp_machine.Values.{Value};
ghost use Rattle.cell_core.specs.xdp_machine.Values as is;
ghost use Rattle.cell_core.specs.xdp_machine.State.{Machine, register};
ghost use Rattle.cell_core.specs.xdp_machine.Memory.{bytes_in};
ghost use Rattle.cell_core.specs.xdp_machine.Memory as machine;
ghost use Rattle.cell_core.specs.xdp_machine.Step as step;
ghost use Rattle.kind_core.specs.declared.kind.Kind.TheVariants as kind_is;
ghost use Rattle.kind_core.specs.declared.kind.Kinds.{Kinds};
ghost use Rattle.kind_core.specs.Numbers.{number_patched};
ghost use Rattle.kind_core.specs.Access as access;
ghost use Rattle.kind_core.specs.Kinds as kind;
ghost use Rattle.kind_core.specs.Effects.{operand, effect_of, verdict};
ghost use Rattle.kind_core.specs.Edges.{changed, transferred};
ghost use Rattle.kind_core.specs.Soundness.{is_store};
ghost use Rattle.kind_core.specs.Tests.{passed};
ghost use Rattle.cell_core.specs.Formed.{AreFormed};
ghost use Rattle.operator_cells.specs.Making.{seen, Makes};
ghost use Rattle.operator_cells.specs.Spreading.{MakesBytes};
ghost use Rattle.operator_cells.specs.HeldCells.RegisterCells.{PointerView, pointed, pointer_at, AreInside, Counts, number_of, IsThere};
ghost use Rattle.operator_cells.specs.HeldCells.Carrying.{Carries};
ghost use Rattle.register_cells.specs.Reading.{HasNumber, Finds};
ghost use Rattle.register_cells.specs.Storing.{points, left_of, IsSource, Fills, Leaves};
ghost use Rattle.operator_cells.specs.Rising.{Rises, RiseAll};
ghost use Rattle.operator_cells.specs.HeldCells.Rows.{number_row, value_row, held_row, CarriesTo};
ghost use Rattle.operator_cells.specs.HeldCells.Pointing.{KeepPointers};
ghost use Rattle.register_cells.specs.Rows.{ValueTo, StoresTo, left_row};
ghost use Rattle.register_cells.specs.Pointing.{MovesPointer, MovesHeld};

use crate::loading::{packet_at, slot_at, whole};
use crate::registers::operand;
use crate::sizes::are_whole;
use cell_core::cell::Cell;
use cell_core::operator::Operator;
use cell_core::xdp_state::bpf_isa::{Insn, Op, Size, Src, Width};
use cell_core::xdp_state::memory::bytes_in;
use kind_core::number::any;
use kind_core::{Kind, Kinds, Number};
use operator_cells::cells::{constant, operate};
use operator_cells::held_cells::machine_cells::{Pointer, RegisterCells};
use operator_cells::held_cells::operand::number_cell;
use operator_cells::spreading::{patch, spread};
use std::alloc::AllocError;

// Whether it is an answer of a lookup, or a place in an entry.
fn points(kind: Kind) -> bool
    ensures { result ≡ points kind }
{
    matches!(kind, Kind::Maybe(_, _) | Kind::Entry(_, _))
}

// The cell of a pointer's lookup.
fn found(pointers: &[Pointer], p: u32) -> u32
    requires { p < length (pointed pointers.now) }
    ensures { result ≡ (pointer_at (pointed pointers.now) p).found }
{
    pointers[p as usize].found
}

// The number 0 in the place of a value without a number: it is there once a pointer is.
fn nothing(
    cells: &mut Vec<Cell>,
    pointers: &[Pointer],
    kind: Kind,
    p: u32,
) -> Result<u32, AllocError>
    requires { (decls : List MapDecl) × Counts decls (length (seen cells.old.items)) (pointed pointers.now) kind p }
    ensures makes { IfOk result (λ c. Makes (seen cells.old.items) (seen cells.new.items) c (λ packet v. 0)) }
    ensures rises { IfOk result (λ c. Rises (seen cells.old.items) (seen cells.new.items) c (λ row. value_row row (pointed pointers.now) kind p)) }
{
    if points(kind) {
        let lookup = found(pointers, p);
        let c = operate(cells, Operator::Constant(0), &[lookup], 0, 1)?;
        return Ok(c);
    }
    let c = constant(cells, 0, 1)?;
    Ok(c)
}

// What a part of a slot is stored into.
fn left(cells: &mut Vec<Cell>, pointers: &[Pointer], kind: Kind, p: u32) -> Result<u32, AllocError>
    requires { (decls : List MapDecl) × Counts decls (length (seen cells.old.items)) (pointed pointers.now) kind p }
    ensures makes { IfOk result (λ c. Makes (seen cells.old.items) (seen cells.new.items) c (λ packet v. left_of v kind p)) }
    ensures rises { IfOk result (λ c. Rises (seen cells.old.items) (seen cells.new.items) c (λ row. value_row row (pointed pointers.now) kind p)) }
{
    match kind {
        Kind::Num(n) => {
            let c = number_cell(cells, n, p)?;
            Ok(c)
        }
        _ => {
            let c = nothing(cells, pointers, kind, p)?;
            Ok(c)
        }
    }
}

// What is known of it.
fn underlying(kind: Kind) -> Number
    ensures { (n : Number) → access.underlying kind ≡ Ok n → result ≡ n }
{
    match kind {
        Kind::Num(n) => n,
        Kind::Unset => any(Width::Bits64),
        _ => Number::Known(0),
    }
}

// A slot with a part stored over what was there.
fn part_stored(
    cells: &mut Vec<Cell>,
    pointers: &[Pointer],
    size: Size,
    at: u32,
    a: Kind,
    p: u32,
    n: Number,
    q: u32,
) -> Result<u32, AllocError>
    requires slot { (decls : List MapDecl) × Counts decls (length (seen cells.old.items)) (pointed pointers.now) a p }
    requires source { IsThere (length (seen cells.old.items)) n q }
    requires inside { at + bytes_in size ≤ 8 }
    ensures finds { (m : Number) → access.underlying a ≡ Ok m → IfOk result (λ c. Finds (seen cells.old.items) (seen cells.new.items) (number_patched size at m n) c (λ packet v. little_number 8 (patched (little_bytes 8 (left_of v a p)) at (little_bytes (bytes_in size) (number_of v n q))))) }
    ensures rows { (m : Number) → access.underlying a ≡ Ok m → IfOk result (λ c. ValueTo (seen cells.old.items) (seen cells.new.items) (pointed pointers.now) (kind_is.Num (number_patched size at m n)) c (λ row. max (value_row row (pointed pointers.now) a p) (number_row row n q))) }
{
    match (underlying(a), n) {
        (Number::Known(_), Number::Known(_)) => Ok(0),
        _ => {
            let old = left(cells, pointers, a, p)?;
            let part = number_cell(cells, n, q)?;
            let c = patch(cells, size, at, old, part)?;
            Ok(c)
        }
    }
}

// A slot after a store: it takes any value whole.
fn to_slot(
    cells: &mut Vec<Cell>,
    pointers: &[Pointer],
    size: Size,
    at: u32,
    a: Kind,
    p: u32,
    b: Kind,
    q: u32,
) -> Result<u32, AllocError>
    requires formed { AreFormed (seen cells.old.items) }
    requires slot { (decls : List MapDecl) × Counts decls (length (seen cells.old.items)) (pointed pointers.now) a p }
    requires source { HasNumber (length (seen cells.old.items)) b q }
    requires inside { at + bytes_in size ≤ 8 }
    ensures fills { (decls : List MapDecl) → Counts decls (length (seen cells.old.items)) (pointed pointers.now) b q → IfOk (access.to_slot size at a b) (λ x. IfOk result (λ c. Fills decls (pointed pointers.now) size at a p b q (seen cells.old.items) (seen cells.new.items) x c)) }
    ensures rows { IfOk (access.to_slot size at a b) (λ x. IfOk result (λ c. ValueTo (seen cells.old.items) (seen cells.new.items) (pointed pointers.now) x c (λ row. max (left_row row (pointed pointers.now) size a p) (value_row row (pointed pointers.now) b q)))) }
    ensures points { IfOk (access.to_slot size at a b) (λ x. IfOk result (λ c. MovesPointer b q x c)) }
{
    match size {
        Size::Dw => {
            let c = whole(cells, b, q)?;
            Ok(c)
        }
        _ => match b {
            Kind::Num(n) => {
                let c = part_stored(cells, pointers, size, at, a, p, n, q)?;
                Ok(c)
            }
            _ => Ok(0),
        },
    }
}

// A store into the stack.
fn to_stack(
    cells: &mut Vec<Cell>,
    pointers: &[Pointer],
    held: &mut RegisterCells,
    kinds: &Kinds,
    base: Kind,
    offset: i16,
    size: Size,
    b: Kind,
    q: u32,
) -> Result<(), AllocError>
    requires formed { AreFormed (seen cells.old.items) }
    requires inside { (decls : List MapDecl) × AreInside decls (length (seen cells.old.items)) (pointed pointers.now) held.old kinds.now }
    requires source { HasNumber (length (seen cells.old.items)) b q }
    ensures leaves { (decls : List MapDecl) (node : ℕ) (is_ref : Bool) (o : ℤ) (t : Machine → Value) → base ≡ kind_is.Stack o → AreInside decls (length (seen cells.old.items)) (pointed pointers.now) held.old kinds.now → Counts decls (length (seen cells.old.items)) (pointed pointers.now) b q → IsSource decls (pointed pointers.now) node kinds.now held.old b q t → IfOk (access.stored decls kinds.now (kind_is.Stack o) offset size b) (λ e. OnOk result (Leaves decls (pointed pointers.now) node kinds.now held.old held.new (seen cells.old.items) (seen cells.new.items) (changed node is_ref false kinds.now e) (λ m. machine.stored m (is.Stack o) offset size (t m)))) }
    ensures rows { (decls : List MapDecl) (node : ℕ) (is_ref : Bool) (o : ℤ) → base ≡ kind_is.Stack o → IfOk (access.stored decls kinds.now (kind_is.Stack o) offset size b) (λ e. OnOk result (StoresTo (pointed pointers.now) kinds.now held.old (changed node is_ref false kinds.now e) held.new (kind_is.Stack o) offset size b q (seen cells.old.items) (seen cells.new.items))) }
    ensures points { (decls : List MapDecl) (node : ℕ) (is_ref : Bool) (o : ℤ) → base ≡ kind_is.Stack o → MovesHeld kinds.now held.old b q → IfOk (access.stored decls kinds.now (kind_is.Stack o) offset size b) (λ e. OnOk result (KeepPointers kinds.now held.old (changed node is_ref false kinds.now e) held.new)) }
{
    are_whole(held, kinds);
    match slot_at(base, offset, size) {
        Some(at) => {
            let slot = at / 8;
            let c = to_slot(
                cells,
                pointers,
                size,
                (at % 8) as u32,
                kinds.slots[slot],
                held.slots[slot],
                b,
                q,
            )?;
            held.slots[slot] = c;
            Ok(())
        }
        None => Ok(()),
    }
}

// Bytes in the place of others.
fn overwrite(window: &mut [u32], at: usize, bytes: &[u32])
    requires { at + length bytes.now ≤ length window.old }
    ensures { window.new ≡ patched window.old at bytes.now }
{
    window[at..at + bytes.len()].copy_from_slice(bytes);
}

// A store of a number into the first 256 bytes of the packet.
fn to_window(
    cells: &mut Vec<Cell>,
    held: &mut RegisterCells,
    at: usize,
    size: Size,
    n: Number,
    q: u32,
) -> Result<(), AllocError>
    requires inside { at + bytes_in size ≤ 256 }
    requires source { IsThere (length (seen cells.old.items)) n q }
    ensures makes { OnOk result ((bytes : List ℕ) × (held.new ≡ record held.old { window = patched held.old.window at bytes }) × MakesBytes (seen cells.old.items) (seen cells.new.items) (bytes_in size) bytes (λ v. little_bytes (bytes_in size) (number_of v n q))) }
    ensures rises { OnOk result ((bytes : List ℕ) × (held.new ≡ record held.old { window = patched held.old.window at bytes }) × (length bytes ≡ bytes_in size) × RiseAll (seen cells.old.items) (seen cells.new.items) bytes (λ row. number_row row n q)) }
    ensures points { (k : Kinds) → OnOk result (KeepPointers k held.old k held.new) }
{
    let c = number_cell(cells, n, q)?;
    let bytes = spread(cells, c, bytes_in(size) as u32)?;
    overwrite(&mut held.window, at, &bytes);
    Ok(())
}

// A store into the packet.
fn to_packet(
    cells: &mut Vec<Cell>,
    held: &mut RegisterCells,
    kinds: &Kinds,
    o: u16,
    offset: i16,
    size: Size,
    b: Kind,
    q: u32,
) -> Result<(), AllocError>
    requires source { HasNumber (length (seen cells.old.items)) b q }
    ensures leaves { (decls : List MapDecl) (ps : List PointerView) (node : ℕ) (is_ref : Bool) (t : Machine → Value) → AreInside decls (length (seen cells.old.items)) ps held.old kinds.now → IsSource decls ps node kinds.now held.old b q t → IfOk (access.stored decls kinds.now (kind_is.Packet o) offset size b) (λ e. OnOk result (Leaves decls ps node kinds.now held.old held.new (seen cells.old.items) (seen cells.new.items) (changed node is_ref false kinds.now e) (λ m. machine.stored m (is.Packet (pos o)) offset size (t m)))) }
    ensures rows { (decls : List MapDecl) (ps : List PointerView) (node : ℕ) (is_ref : Bool) → IfOk (access.stored decls kinds.now (kind_is.Packet o) offset size b) (λ e. OnOk result (StoresTo ps kinds.now held.old (changed node is_ref false kinds.now e) held.new (kind_is.Packet o) offset size b q (seen cells.old.items) (seen cells.new.items))) }
    ensures points { (k : Kinds) → OnOk result (KeepPointers k held.old k held.new) }
{
    are_whole(held, kinds);
    match packet_at(o, offset, size) {
        Some(at) => match b {
            Kind::Num(n) => to_window(cells, held, at, size, n, q),
            _ => Ok(()),
        },
        None => Ok(()),
    }
}

// A store of an operand into the stack or the packet.
fn store(
    cells: &mut Vec<Cell>,
    pointers: &[Pointer],
    held: &mut RegisterCells,
    kinds: &Kinds,
    insn: &Insn,
    size: Size,
    src: Src,
) -> Result<(), AllocError>
    requires insn { IsInsn insn.now }
    requires formed { AreFormed (seen cells.old.items) }
    requires inside { (decls : List MapDecl) × AreInside decls (length (seen cells.old.items)) (pointed pointers.now) held.old kinds.now }
    requires plain { (q o : ℕ) → kind.register kinds.now insn.now.dst ≢ kind_is.Entry q o }
    ensures leaves { (decls : List MapDecl) (node : ℕ) (is_ref : Bool) → AreInside decls (length (seen cells.old.items)) (pointed pointers.now) held.old kinds.now → IfOk (access.stored decls kinds.now (kind.register kinds.now insn.now.dst) insn.now.offset size (operand kinds.now insn.now src)) (λ e. OnOk result (Leaves decls (pointed pointers.now) node kinds.now held.old held.new (seen cells.old.items) (seen cells.new.items) (changed node is_ref false kinds.now e) (λ m. machine.stored m (register m.registers insn.now.dst) insn.now.offset size (step.operand m.registers insn.now src)))) }
    ensures rows { (decls : List MapDecl) (node : ℕ) (is_ref : Bool) → IfOk (access.stored decls kinds.now (kind.register kinds.now insn.now.dst) insn.now.offset size (operand kinds.now insn.now src)) (λ e. OnOk result (StoresTo (pointed pointers.now) kinds.now held.old (changed node is_ref false kinds.now e) held.new (kind.register kinds.now insn.now.dst) insn.now.offset size (operand kinds.now insn.now src) (slice_index held.old.registers insn.now.src) (seen cells.old.items) (seen cells.new.items))) }
    ensures points { (decls : List MapDecl) (node : ℕ) (is_ref : Bool) → IfOk (access.stored decls kinds.now (kind.register kinds.now insn.now.dst) insn.now.offset size (operand kinds.now insn.now src)) (λ e. OnOk result (KeepPointers kinds.now held.old (changed node is_ref false kinds.now e) held.new)) }
{
    let base = kinds.registers[insn.dst as usize];
    let b = operand(kinds, insn, src);
    let q = held.registers[insn.src as usize];
    match base {
        Kind::Packet(o) => to_packet(cells, held, kinds, o, insn.offset, size, b, q),
        Kind::Stack(_) => to_stack(cells, pointers, held, kinds, base, insn.offset, size, b, q),
        _ => Ok(()),
    }
}

/// A store into the stack or the packet: its cells, and those of the slot or of the bytes.
pub fn carry_store(
    cells: &mut Vec<Cell>,
    pointers: &[Pointer],
    held: &mut RegisterCells,
    kinds: &Kinds,
    insn: &Insn,
) -> Result<(), AllocError>
    requires insn { IsInsn insn.now }
    requires op { is_store insn.now.op ≡ true }
    requires formed { AreFormed (seen cells.old.items) }
    requires inside { (decls : List MapDecl) × AreInside decls (length (seen cells.old.items)) (pointed pointers.now) held.old kinds.now }
    requires plain { (q o : ℕ) → kind.register kinds.now insn.now.dst ≢ kind_is.Entry q o }
    ensures carries { (decls : List MapDecl) (node : ℕ) (is_ref : Bool) → verdict (effect_of decls kinds.now insn.now) ≡ passed → AreInside decls (length (seen cells.old.items)) (pointed pointers.now) held.old kinds.now → OnOk result (Carries decls (pointed pointers.now) insn.now node is_ref false kinds.now held.old held.new (seen cells.old.items) (seen cells.new.items)) }
    ensures rows { (decls : List MapDecl) (node : ℕ) (is_ref : Bool) → verdict (effect_of decls kinds.now insn.now) ≡ passed → OnOk result (CarriesTo decls (λ row. held_row row (pointed pointers.now) held.old kinds.now) (pointed pointers.now) insn.now kinds.now held.old (transferred decls kinds.now insn.now node is_ref false) held.new (seen cells.old.items) (seen cells.new.items)) }
    ensures points { (decls : List MapDecl) (node : ℕ) (is_ref : Bool) → verdict (effect_of decls kinds.now insn.now) ≡ passed → OnOk result (KeepPointers kinds.now held.old (transferred decls kinds.now insn.now node is_ref false) held.new) }
{
    match insn.op {
        Op::StoreImm(size) => store(cells, pointers, held, kinds, insn, size, Src::K),
        Op::Store(size) => store(cells, pointers, held, kinds, insn, size, Src::X),
        _ => Ok(()),
    }
}
