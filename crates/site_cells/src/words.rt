//! The words of a region: the bytes of the packet or of the stack that a pointer leads to, eight in a word, the low byte first.

ghost use Rattle.std.specs.Prelude.{◌≡◌, ◌<◌, ◌≤◌, ◌+◌, ◌+ℤ◌, ℕ, ℤ, pos, List, length, slice_index, All, IfOk, IfSome};
ghost use Rattle.cell_core.specs.xdp_maps.declared.decl.MapDecl.{MapDecl};
ghost use Rattle.cell_core.specs.xdp_machine.Memory as machine;
ghost use Rattle.kind_core.specs.declared.kind.Kind.TheVariants as kind_is;
ghost use Rattle.kind_core.specs.Tests.{passed};
ghost use Rattle.kind_core.specs.Calls.{region};
ghost use Rattle.byteorder.specs.Endian.{little_bytes};
ghost use Rattle.cell_core.specs.Rows.{greatest};
ghost use Rattle.operator_cells.specs.Making.{seen, Makes};
ghost use Rattle.operator_cells.specs.Rising.{Rises, RiseAll};
ghost use Rattle.operator_cells.specs.HeldCells.RegisterCells.{PointerView, AreInside, IsThere, number_of};
ghost use Rattle.operator_cells.specs.HeldCells.Rows.{number_row, value_row, held_row};
ghost use Rattle.operator_cells.specs.row_rules.PlaceRows.Spans.{slots_of, span_row};
ghost use Rattle.operator_cells.specs.row_rules.PlaceRows.Spans as places;
ghost use Rattle.site_cells.specs.Words.{JoinsWords, HasNumber, HoldsByte, HoldsBytes, HoldsRegion, MakesWords};

use crate::sizes::are_whole;
use cell_core::cell::{Cell, Cells};
use cell_core::xdp_state::memory::inside;
use kind_core::{Kind, Kinds, Number};
use operator_cells::held_cells::machine_cells::RegisterCells;
use operator_cells::sharing::{shared_constant, shared_slice};
use operator_cells::slicing::join_bytes;
use std::alloc::AllocError;

// The words that bytes are, the last with what is left of them.
fn join_words(cells: &mut Vec<Cell>, bytes: &[u32]) -> Result<Cells, AllocError>
    requires there { All (λ i. i < length (seen cells.old.items)) bytes.now }
    requires most { length bytes.now ≤ 64 }
    ensures joins { IfOk result (λ words. JoinsWords (seen cells.old.items) (seen cells.new.items) bytes.now words.items) }
    ensures rises { IfOk result (λ words. RiseAll (seen cells.old.items) (seen cells.new.items) words.items (λ row. greatest row bytes.now)) }
{
    let mut words = Cells::new(*cells.allocator());
    let count = (bytes.len() + 7) / 8;
    for j in 0..count {
        let end = (8 * j + 8).min(bytes.len());
        let word = join_bytes(cells, &bytes[8 * j..end])?;
        words.push(word)?;
    }
    Ok(words)
}

// A byte of a number of eight.
fn number_byte(cells: &mut Vec<Cell>, number: Number, held: u32, at: u32) -> Result<u32, AllocError>
    requires there { IsThere (length (seen cells.old.items)) number held }
    requires inside { at < 8 }
    ensures makes { IfOk result (λ c. Makes (seen cells.old.items) (seen cells.new.items) c (λ packet v. slice_index (little_bytes 8 (number_of v number held)) at)) }
    ensures rises { IfOk result (λ c. Rises (seen cells.old.items) (seen cells.new.items) c (λ row. number_row row number held)) }
{
    match number {
        Number::Known(n) => {
            let c = shared_constant(cells, n >> (8 * at), 8)?;
            Ok(c)
        }
        Number::Between(_, _) => {
            let c = shared_slice(cells, held, 8 * at, 8)?;
            Ok(c)
        }
    }
}

// A byte of a slot that has a number.
fn slot_byte(cells: &mut Vec<Cell>, kind: Kind, held: u32, at: u32) -> Result<u32, AllocError>
    requires there { HasNumber (length (seen cells.old.items)) kind held }
    requires inside { at < 8 }
    ensures holds { IfOk result (λ c. HoldsByte (seen cells.old.items) (seen cells.new.items) kind held at c) }
    ensures rises { (ps : List PointerView) → IfOk result (λ c. Rises (seen cells.old.items) (seen cells.new.items) c (λ row. value_row row ps kind held)) }
{
    match kind {
        Kind::Num(number) => {
            let c = number_byte(cells, number, held, at)?;
            Ok(c)
        }
        _ => {
            let c = shared_constant(cells, 0, 8)?;
            Ok(c)
        }
    }
}

// Bytes of the stack, from its lowest on.
fn stack_bytes(
    cells: &mut Vec<Cell>,
    held: &RegisterCells,
    kinds: &Kinds,
    at: usize,
    count: usize,
) -> Result<Vec<u32>, AllocError>
    requires inside { (decls : List MapDecl) × (ps : List PointerView) × AreInside decls (length (seen cells.old.items)) ps held.now kinds.now }
    requires within { at + count ≤ 512 }
    ensures holds { (decls : List MapDecl) (ps : List PointerView) (node : ℕ) → IfOk result (λ bytes. HoldsBytes decls ps node kinds.now held.now (seen cells.old.items) (seen cells.new.items) at count bytes.items) }
    ensures rises { (ps : List PointerView) → IfOk result (λ bytes. RiseAll (seen cells.old.items) (seen cells.new.items) bytes.items (λ row. span_row (held_row row ps held.now kinds.now) (slots_of at count))) }
{
    are_whole(held, kinds);
    let mut bytes = Vec::new(*cells.allocator());
    for i in 0..count {
        let slot = (at + i) / 8;
        let byte = slot_byte(
            cells,
            kinds.slots[slot],
            held.slots[slot],
            ((at + i) % 8) as u32,
        )?;
        bytes.push(byte)?;
    }
    Ok(bytes)
}

// The words of bytes of the packet.
fn packet_words(
    cells: &mut Vec<Cell>,
    held: &RegisterCells,
    kinds: &Kinds,
    at: u16,
    count: u32,
) -> Result<Cells, AllocError>
    requires inside { (decls : List MapDecl) × (ps : List PointerView) × AreInside decls (length (seen cells.old.items)) ps held.now kinds.now }
    requires most { count ≤ 64 }
    ensures made { IfOk result (λ words. MakesWords (seen cells.old.items) (seen cells.new.items) words.items) }
    ensures holds { (decls : List MapDecl) (ps : List PointerView) (node : ℕ) → region kinds.now count (kind_is.Packet at) ≡ passed → IfOk result (λ words. HoldsRegion decls ps node kinds.now held.now (seen cells.old.items) (seen cells.new.items) (kind_is.Packet at) count words.items) }
    ensures rises { (ps : List PointerView) → IfOk result (λ words. RiseAll (seen cells.old.items) (seen cells.new.items) words.items (λ row. span_row (held_row row ps held.now kinds.now) (places.region (kind_is.Packet at) (pos 0) count))) }
{
    are_whole(held, kinds);
    let from = at as usize;
    let to = from + count as usize;
    if to > 256 {
        return Ok(Cells::new(*cells.allocator()));
    }
    let words = join_words(cells, &held.window[from..to])?;
    Ok(words)
}

// Where bytes begin in the stack, from its lowest, by their distance from its end.
fn stack_place(o: i16, count: usize) -> Option<usize>
    requires { count ≤ 64 }
    ensures value { result ≡ machine.inside (o +ℤ pos 512) count 512 }
    ensures within { IfSome result (λ a. a + count ≤ 512) }
{
    inside(i128::from(o) + 512, count, 512)
}

// The same of a kind.
fn stack_start(base: Kind, count: usize) -> Option<usize>
    requires { count ≤ 64 }
    ensures value { (o : ℤ) → base ≡ kind_is.Stack o → result ≡ machine.inside (o +ℤ pos 512) count 512 }
    ensures within { IfSome result (λ a. a + count ≤ 512) }
    ensures span { IfSome result (λ a. slots_of a count ≡ places.region base (pos 0) count) }
{
    match base {
        Kind::Stack(o) => stack_place(o, count),
        _ => None,
    }
}

// The words of bytes of the stack.
fn stack_words(
    cells: &mut Vec<Cell>,
    held: &RegisterCells,
    kinds: &Kinds,
    base: Kind,
    count: u32,
) -> Result<Cells, AllocError>
    requires inside { (decls : List MapDecl) × (ps : List PointerView) × AreInside decls (length (seen cells.old.items)) ps held.now kinds.now }
    requires most { count ≤ 64 }
    ensures made { IfOk result (λ words. MakesWords (seen cells.old.items) (seen cells.new.items) words.items) }
    ensures holds { (decls : List MapDecl) (ps : List PointerView) (node : ℕ) (o : ℤ) → base ≡ kind_is.Stack o → region kinds.now count base ≡ passed → IfOk result (λ words. HoldsRegion decls ps node kinds.now held.now (seen cells.old.items) (seen cells.new.items) base count words.items) }
    ensures rises { (ps : List PointerView) → IfOk result (λ words. RiseAll (seen cells.old.items) (seen cells.new.items) words.items (λ row. span_row (held_row row ps held.now kinds.now) (places.region base (pos 0) count))) }
{
    are_whole(held, kinds);
    match stack_start(base, count as usize) {
        Some(from) => {
            let bytes = stack_bytes(cells, held, kinds, from, count as usize)?;
            let words = join_words(cells, &bytes)?;
            Ok(words)
        }
        None => Ok(Cells::new(*cells.allocator())),
    }
}

/// The words that hold the bytes to which a pointer of a kind leads.
pub fn region_words(
    cells: &mut Vec<Cell>,
    held: &RegisterCells,
    kinds: &Kinds,
    base: Kind,
    count: u32,
) -> Result<Cells, AllocError>
    requires inside { (decls : List MapDecl) × (ps : List PointerView) × AreInside decls (length (seen cells.old.items)) ps held.now kinds.now }
    requires most { count ≤ 64 }
    ensures made { IfOk result (λ words. MakesWords (seen cells.old.items) (seen cells.new.items) words.items) }
    ensures holds { (decls : List MapDecl) (ps : List PointerView) (node : ℕ) → region kinds.now count base ≡ passed → IfOk result (λ words. HoldsRegion decls ps node kinds.now held.now (seen cells.old.items) (seen cells.new.items) base count words.items) }
    ensures rises { (ps : List PointerView) → IfOk result (λ words. RiseAll (seen cells.old.items) (seen cells.new.items) words.items (λ row. span_row (held_row row ps held.now kinds.now) (places.region base (pos 0) count))) }
{
    match base {
        Kind::Packet(at) => {
            let words = packet_words(cells, held, kinds, at, count)?;
            Ok(words)
        }
        Kind::Stack(_) => {
            let words = stack_words(cells, held, kinds, base, count)?;
            Ok(words)
        }
        _ => Ok(Cells::new(*cells.allocator())),
    }
}
