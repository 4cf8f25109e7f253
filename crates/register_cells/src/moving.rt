//! Arithmetic on values, pointers among them.

ghost use Rattle.std.specs.Prelude.{◌≡◌, ◌<◌, ◌≤◌, ◌+◌, ◌-◌, ◌^◌, ◌⊎◌, length, ℕ, pos, List, Some, Ok, IfOk, unsigned_abs};
ghost use Rattle.std.specs.Ordering.{int_eq};
ghost use Rattle.cell_core.specs.bpf_isa.declared.operation.Src.{Src};
ghost use Rattle.cell_core.specs.xdp_maps.declared.decl.MapDecl.{MapDecl};
ghost use Rattle.cell_core.specs.xdp_machine.Arithmetic.{low};
ghost use Rattle.cell_core.specs.xdp_machine.Pointers as machine;
ghost use Rattle.cell_core.specs.xdp_machine.Values.{Value};
ghost use Rattle.kind_core.specs.Pointers as kind;
ghost use Rattle.kind_core.specs.Kinds as kinds;
ghost use Rattle.cell_core.specs.Formed.{AreFormed};
ghost use Rattle.cell_core.specs.bpf_isa.declared.operation.AluCode.TheVariants as alu;
ghost use Rattle.operator_cells.specs.Making.{seen, Makes};
ghost use Rattle.operator_cells.specs.Rising.{Rises};
ghost use Rattle.operator_cells.specs.HeldCells.RegisterCells.{PointerView, Counts};
ghost use Rattle.operator_cells.specs.HeldCells.Rows.{value_row};
ghost use Rattle.register_cells.specs.Reading.{HasNumber, Yields, place_of, IsShort, are_known};
ghost use Rattle.register_cells.specs.Combining.{worked_row, combined_row};
ghost use Rattle.register_cells.specs.Rows.{ValueTo};
ghost use Rattle.register_cells.specs.Pointing.{MovesPointer, MovesEither};
ghost use Rattle.kind_core.specs.declared.kind.Kind.{Kind};

use crate::computing::{compute, extended};
use cell_core::cell::Cell;
use cell_core::operator::Operator;
use cell_core::xdp_state::bpf_isa::{AluCode, Width};
use kind_core::{Kind, Number};
use operator_cells::cells::{constant, operate};
use operator_cells::slicing::copy;
use operator_cells::working::combine;
use std::alloc::AllocError;

// Where a pointer into the packet leads, or its end.
fn place(cells: &mut Vec<Cell>, kind: Kind) -> Result<u32, AllocError>
    ensures makes { IfOk result (λ c. Makes (seen cells.old.items) (seen cells.new.items) c (λ packet v. low 64 (place_of packet kind))) }
    ensures rises { IfOk result (λ c. Rises (seen cells.old.items) (seen cells.new.items) c (λ row. 0)) }
    ensures small { IfOk result (λ c. IsShort kind) }
{
    match kind {
        Kind::Packet(o) => {
            let c = constant(cells, u64::from(o), 64)?;
            Ok(c)
        }
        _ => {
            let c = operate(cells, Operator::Length, &[], 0, 64)?;
            Ok(c)
        }
    }
}

// The distance of two places in the packet.
fn distance(cells: &mut Vec<Cell>, a: Kind, b: Kind) -> Result<u32, AllocError>
    requires formed { AreFormed (seen cells.old.items) }
    ensures makes { IfOk result (λ c. Makes (seen cells.old.items) (seen cells.new.items) c (λ packet v. low 64 (low 64 (place_of packet a) + (2 ^ 64 - low 64 (place_of packet b))))) }
    ensures rises { IfOk result (λ c. Rises (seen cells.old.items) (seen cells.new.items) c (λ row. 1)) }
    ensures small { IfOk result (λ c. IsShort a × IsShort b) }
{
    let to = place(cells, a)?;
    let from = place(cells, b)?;
    let c = combine(cells, AluCode::Sub, Width::Bits64, to, from)?;
    Ok(c)
}

// ADD of 64 bits: a pointer that is moved has the pointer's cells.
fn sum(cells: &mut Vec<Cell>, a: Kind, p: u32, b: Kind, q: u32) -> Result<u32, AllocError>
    requires formed { AreFormed (seen cells.old.items) }
    requires left { HasNumber (length (seen cells.old.items)) a p }
    requires right { HasNumber (length (seen cells.old.items)) b q }
    ensures yields { (decls : List MapDecl) (ps : List PointerView) → Counts decls (length (seen cells.old.items)) ps a p → Counts decls (length (seen cells.old.items)) ps b q → IfOk (kind.sum decls a b) (λ x. IfOk result (λ c. Yields decls ps a p b q (seen cells.old.items) (seen cells.new.items) x c (λ s t. machine.sum s t))) }
    ensures rows { (decls : List MapDecl) (ps : List PointerView) → IfOk (kind.sum decls a b) (λ x. IfOk result (λ c. ValueTo (seen cells.old.items) (seen cells.new.items) ps x c (λ row. worked_row alu.Add b x (value_row row ps a p) (value_row row ps b q)))) }
    ensures points { (decls : List MapDecl) → IfOk (kind.sum decls a b) (λ x. IfOk result (λ c. MovesEither a p b q x c)) }
{
    match a {
        Kind::Num(x) => match b {
            Kind::Num(y) => {
                let c = compute(cells, AluCode::Add, false, Width::Bits64, x, p, y, q)?;
                Ok(c)
            }
            _ => Ok(q),
        },
        _ => Ok(p),
    }
}

// Whether both are places in the packet that are known.
fn are_known(a: Kind, b: Kind) -> bool
    ensures { result ≡ are_known a b }
{
    matches!((a, b), (Kind::Packet(_), Kind::Packet(_)))
}

// SUB of 64 bits: the distance of two places that are known has no cell.
fn difference(cells: &mut Vec<Cell>, a: Kind, p: u32, b: Kind, q: u32) -> Result<u32, AllocError>
    requires formed { AreFormed (seen cells.old.items) }
    requires left { HasNumber (length (seen cells.old.items)) a p }
    requires right { HasNumber (length (seen cells.old.items)) b q }
    ensures yields { (decls : List MapDecl) (ps : List PointerView) → Counts decls (length (seen cells.old.items)) ps a p → Counts decls (length (seen cells.old.items)) ps b q → IfOk (kind.difference decls a b) (λ x. IfOk result (λ c. Yields decls ps a p b q (seen cells.old.items) (seen cells.new.items) x c (λ s t. machine.difference s t))) }
    ensures rows { (decls : List MapDecl) (ps : List PointerView) → IfOk (kind.difference decls a b) (λ x. IfOk result (λ c. ValueTo (seen cells.old.items) (seen cells.new.items) ps x c (λ row. worked_row alu.Sub b x (value_row row ps a p) (value_row row ps b q)))) }
    ensures points { (decls : List MapDecl) → IfOk (kind.difference decls a b) (λ x. IfOk result (λ c. MovesPointer a p x c)) }
{
    match b {
        Kind::Num(y) => match a {
            Kind::Num(x) => {
                let c = compute(cells, AluCode::Sub, false, Width::Bits64, x, p, y, q)?;
                Ok(c)
            }
            _ => Ok(p),
        },
        _ if are_known(a, b) => Ok(0),
        _ => {
            let c = distance(cells, a, b)?;
            Ok(c)
        }
    }
}

// MOV: what is copied whole stays as wide as it is.
fn copied(
    cells: &mut Vec<Cell>,
    width: Width,
    count: u32,
    b: Kind,
    q: u32,
) -> Result<u32, AllocError>
    requires formed { AreFormed (seen cells.old.items) }
    requires there { HasNumber (length (seen cells.old.items)) b q }
    requires count { count ≤ 32 }
    ensures yields { (decls : List MapDecl) (ps : List PointerView) (a : Kind) (p : ℕ) → Counts decls (length (seen cells.old.items)) ps b q → IfOk (kind.copied width count b) (λ x. IfOk result (λ c. Yields decls ps a p b q (seen cells.old.items) (seen cells.new.items) x c (λ s t. machine.copied width count t))) }
    ensures rows { (ps : List PointerView) → IfOk (kind.copied width count b) (λ x. IfOk result (λ c. ValueTo (seen cells.old.items) (seen cells.new.items) ps x c (λ row. value_row row ps b q))) }
    ensures points { IfOk (kind.copied width count b) (λ x. IfOk result (λ c. MovesPointer b q x c)) }
{
    match b {
        Kind::Num(Number::Between(_, _)) if width == Width::Bits64 && count == 0 => {
            let c = copy(cells, q)?;
            Ok(c)
        }
        Kind::Num(y) => {
            let c = extended(cells, width, count, y, q)?;
            Ok(c)
        }
        _ => Ok(q),
    }
}

// The other operations, which are on numbers.
fn computed(
    cells: &mut Vec<Cell>,
    width: Width,
    code: AluCode,
    signed: bool,
    a: Kind,
    p: u32,
    b: Kind,
    q: u32,
) -> Result<u32, AllocError>
    requires formed { AreFormed (seen cells.old.items) }
    requires left { HasNumber (length (seen cells.old.items)) a p }
    requires right { HasNumber (length (seen cells.old.items)) b q }
    ensures yields { (s : Src) (decls : List MapDecl) (ps : List PointerView) → IfOk (kind.computed width code signed s a b) (λ x. IfOk result (λ c. Yields decls ps a p b q (seen cells.old.items) (seen cells.new.items) x c (λ u t. machine.computed width code signed u t))) }
    ensures rows { (s : Src) (ps : List PointerView) → IfOk (kind.computed width code signed s a b) (λ x. IfOk result (λ c. ValueTo (seen cells.old.items) (seen cells.new.items) ps x c (λ row. worked_row code b x (value_row row ps a p) (value_row row ps b q)))) }
{
    match a {
        Kind::Num(x) => match b {
            Kind::Num(y) => {
                let c = compute(cells, code, signed, width, x, p, y, q)?;
                Ok(c)
            }
            _ => Ok(0),
        },
        _ => Ok(0),
    }
}

// Whether a division is signed, by the offset of its instruction.
fn is_signed(offset: i16) -> bool
    ensures { result ≡ int_eq offset (pos 1) }
{
    offset == 1
}

/// An arithmetic instruction with this offset.
pub fn combined(
    cells: &mut Vec<Cell>,
    width: Width,
    code: AluCode,
    offset: i16,
    a: Kind,
    p: u32,
    b: Kind,
    q: u32,
) -> Result<u32, AllocError>
    requires formed { AreFormed (seen cells.old.items) }
    requires left { HasNumber (length (seen cells.old.items)) a p }
    requires right { HasNumber (length (seen cells.old.items)) b q }
    requires offset { unsigned_abs offset ≤ 32 }
    ensures yields { (s : Src) (decls : List MapDecl) (ps : List PointerView) → Counts decls (length (seen cells.old.items)) ps a p → Counts decls (length (seen cells.old.items)) ps b q → IfOk (kind.combined decls width code offset s a b) (λ x. IfOk result (λ c. Yields decls ps a p b q (seen cells.old.items) (seen cells.new.items) x c (λ u t. machine.combined width code offset u t))) }
    ensures rows { (s : Src) (decls : List MapDecl) (ps : List PointerView) → IfOk (kind.combined decls width code offset s a b) (λ x. IfOk result (λ c. ValueTo (seen cells.old.items) (seen cells.new.items) ps x c (λ row. combined_row code b x (value_row row ps a p) (value_row row ps b q)))) }
    ensures points { (s : Src) (decls : List MapDecl) → IfOk (kind.combined decls width code offset s a b) (λ x. IfOk result (λ c. MovesEither a p b q x c)) }
{
    let signed = is_signed(offset);
    match code {
        AluCode::Mov => copied(cells, width, u32::from(offset.unsigned_abs()), b, q),
        AluCode::Add => match width {
            Width::Bits64 => sum(cells, a, p, b, q),
            Width::Bits32 => computed(cells, width, code, signed, a, p, b, q),
        },
        AluCode::Sub => match width {
            Width::Bits64 => difference(cells, a, p, b, q),
            Width::Bits32 => computed(cells, width, code, signed, a, p, b, q),
        },
        _ => computed(cells, width, code, signed, a, p, b, q),
    }
}
