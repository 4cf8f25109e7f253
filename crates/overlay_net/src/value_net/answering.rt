//! What an access answers.

ghost use Rattle.std.specs.Prelude.{ℕ, List, [], ◌∷◌, ◌≡◌, ◌+◌, ◌/◌, ◌%◌, ◌<◌, ◌≤◌, true, if◌then◌else◌, All, slice_range, IfOk};
ghost use Rattle.byteorder.specs.Endian.{little_number};
ghost use Rattle.hazard_core.specs.xdp_maps.Contents.{IsBytes};
ghost use Rattle.hazard_core.specs.cell_core.Cells.{bits_from, on};
ghost use Rattle.hazard_core.specs.cell_core.Sites.{ProgramView, site_at};
ghost use Rattle.hazard_core.specs.Commits.{word_at};
ghost use Rattle.hazard_core.specs.StageValues.{StageValues, access_pointer};
ghost use Rattle.hazard_core.specs.Overlay.{answer_over};
ghost use Rattle.hazard_core.specs.Tables.{TableState, decl_of};
ghost use Rattle.cell_nets.specs.Operands.{IsOperand, number_in};
ghost use Rattle.cell_nets.specs.Wires.{wires_of, Gives};
ghost use Rattle.overlay_net.specs.ValueNet.Pendings.{all_taken, IsFitting, AreOf, ShowPendings, HasValue, ShowsEntry};
ghost use Rattle.overlay_net.specs.ValueNet.Words.{IsAligned, answers_number, access_start, access_bytes};

use crate::site_operands::Pending;
use crate::value_net::changing::{bytes_of, change_bytes, first_bit};
use crate::value_net::entry::entry_word;
use crate::value_net::operating::choose;
use block_core::block::BlockWire;
use block_core::name::Name;
use cell_nets::cell_core::site::Act;
use cell_nets::cell_core::xdp_state::xdp_maps::decl::MapDecl;
use cell_nets::operand::Operand;
use cell_nets::wires::cut;
use std::alloc::{AllocError, Global};

/// Where an access begins, and how many bytes it has.
fn access(act: Act) -> (u32, u8)
    requires { answers_number act ≡ true }
    ensures start { result.0 ≡ access_start act }
    ensures bytes { result.1 ≡ access_bytes act }
    ensures some { 0 < result.1 }
    ensures most { result.1 ≤ 8 }
{
    match act {
        Act::Load(at, size) => (at, bytes_of(size)),
        Act::Atomic(at, atomic) => (at, change_bytes(atomic.wide)),
        _ => (0, 1),
    }
}

/// Bits of the number of so many bytes at a place, by the word in which they are, where a pointer is not null.
fn number_under<P: Copy>(
    alloc: Global,
    wires: &mut Vec<BlockWire<Name<P>>>,
    part: P,
    under: Operand<Name<P>>,
    word: Operand<Name<P>>,
    at: u32,
    bytes: u8,
    from: u8,
    width: u8,
) -> Result<Operand<Name<P>>, AllocError>
    requires under { IsOperand under }
    requires word { IsOperand word }
    requires some { 0 < bytes }
    requires one { at % 8 + bytes ≤ 8 }
    requires from { from ≤ 63 }
    requires width { width ≤ 64 }
    ensures { (n : ℕ) (value : List ℕ) → IsBytes n value → IfOk result (Gives part (wires_of wires.old.items) (wires_of wires.new.items) (under ∷ word ∷ [])
        (λ v. number_in v word ≡ word_at value (at / 8)) (λ v. bits_from (if on (number_in v under) then little_number bytes (slice_range value at (at + bytes)) else 0) from width) width) }
{
    let first = first_bit(at);
    let number = cut(alloc, wires, part, word, first, bytes * 8)?;
    let out = choose(
        alloc,
        wires,
        part,
        under,
        number,
        Operand::Known(0),
        from,
        width,
    )?;
    Ok(out)
}

/// Bits of what a load or an atomic change answers: the number that it finds, 0 where its pointer is null. `first` is the word of the table
/// in which it lies.
pub fn access_answer<P: Copy>(
    alloc: Global,
    wires: &mut Vec<BlockWire<Name<P>>>,
    part: P,
    act: Act,
    decl: &MapDecl,
    pendings: &[Pending<'_, Name<P>>],
    under: Operand<Name<P>>,
    first: Operand<Name<P>>,
    from: u8,
    width: u8,
) -> Result<Operand<Name<P>>, AllocError>
    requires number { answers_number act ≡ true }
    requires aligned { IsAligned act }
    requires fitting { All (IsFitting decl.now) pendings.now }
    requires few { decl.now.value ≤ 64 }
    requires under { IsOperand under }
    requires first { IsOperand first }
    requires from { from ≤ 63 }
    requires width { width ≤ 64 }
    ensures { (p : ProgramView) (t : TableState) (h : StageValues) (before : List ℕ) (j : ℕ) → let s = site_at p.sites j in
        s.act ≡ act → AreOf p s.map before pendings.now → decl_of t.decls s.map ≡ decl.now → HasValue t s.map (access_pointer h s)
        → IfOk result (Gives part (wires_of wires.old.items) (wires_of wires.new.items) (under ∷ first ∷ all_taken pendings.now)
        (λ v. ShowsEntry v t s.map (access_start act / 8) (access_pointer h s) under first × ShowPendings v p t h before pendings.now)
        (λ v. bits_from (answer_over p t h before j) from width) width) }
{
    let (at, bytes) = access(act);
    let word = entry_word(alloc, wires, part, decl, pendings, under, first, at / 8)?;
    let out = number_under(alloc, wires, part, under, word, at, bytes, from, width)?;
    Ok(out)
}
