//! What an operation makes of a word of the value that it finds.

ghost use Rattle.std.specs.Prelude.{ℕ, List, [], ◌∷◌, ◌≡◌, ◌+◌, ◌-◌, ◌*◌, ◌≤◌, min, All, length, drop, IfOk};
ghost use Rattle.hazard_core.specs.xdp_maps.Contents.{IsBytes};
ghost use Rattle.hazard_core.specs.cell_core.Formed.{HasWords, IsInside};
ghost use Rattle.hazard_core.specs.xdp_maps.declared.decl.MapDecl.{MapDecl};
ghost use Rattle.hazard_core.specs.cell_core.Sites.{ProgramView, site_at, bytes_of, operation_with};
ghost use Rattle.hazard_core.specs.StageValues.{StageValues, asked};
ghost use Rattle.hazard_core.specs.Tables.{decl_of};
ghost use Rattle.overlay_net.specs.SiteOperands.Sites.{operands_of, ShowsAsked};
ghost use Rattle.hazard_core.specs.Commits.{word_at};
ghost use Rattle.hazard_core.specs.Overlay.{value_as};
ghost use Rattle.cell_nets.specs.Operands.{IsOperand, number_in};
ghost use Rattle.cell_nets.specs.Wires.{wires_of, always, HasBits, Gives};
ghost use Rattle.overlay_net.specs.ValueNet.Lists.{numbers_in};
ghost use Rattle.overlay_net.specs.ValueNet.Words.{IsAligned};

use crate::site_operands::SiteNets;
use crate::value_net::changing::{changed_word, patched_word};
use crate::value_net::operating::operand_at;
use block_core::block::BlockWire;
use block_core::name::Name;
use cell_nets::cell_core::site::Act;
use cell_nets::cell_core::xdp_state::xdp_maps::decl::MapDecl;
use cell_nets::operand::Operand;
use cell_nets::wires::cut;
use std::alloc::{AllocError, Global};

/// How many bytes a word has of so many.
fn word_bytes(bytes: u32, w: u32) -> u8
    ensures { result ≡ min 8 (bytes - 8 * w) }
{
    let left = (bytes as u64).saturating_sub(w as u64 * 8);
    if left < 8 { left as u8 } else { 8 }
}

/// A word of the first bytes of words: of the last one its low bytes alone.
fn value_word<P: Copy>(
    alloc: Global,
    wires: &mut Vec<BlockWire<Name<P>>>,
    part: P,
    operands: &[Operand<Name<P>>],
    bytes: u32,
    w: u32,
) -> Result<Operand<Name<P>>, AllocError>
    requires operands { All IsOperand operands.now }
    requires words { bytes + 8 ≤ 8 * length operands.now }
    requires few { bytes ≤ 64 }
    ensures { IfOk result (Gives part (wires_of wires.old.items) (wires_of wires.new.items) operands.now always (λ v. word_at (bytes_of bytes (drop 1 (numbers_in v operands.now))) w) 64) }
{
    let count = word_bytes(bytes, w);
    if count == 0 {
        return Ok(Operand::Known(0));
    }
    let word = operand_at(operands, 1 + w as usize);
    let low = cut(alloc, wires, part, word, 0, count * 8)?;
    let out = cut(alloc, wires, part, low, 0, 64)?;
    Ok(out)
}

/// What an operation makes of a word, by what it does.
fn word_as<P: Copy>(
    alloc: Global,
    wires: &mut Vec<BlockWire<Name<P>>>,
    part: P,
    act: Act,
    decl: &MapDecl,
    operands: &[Operand<Name<P>>],
    w: u32,
    old: Operand<Name<P>>,
) -> Result<Operand<Name<P>>, AllocError>
    requires old { IsOperand old }
    requires word { HasBits 64 old }
    requires operands { All IsOperand operands.now }
    requires few { decl.now.value ≤ 64 }
    requires words { HasWords decl.now.value act (length operands.now) }
    requires inside { IsInside decl.now.value act }
    requires aligned { IsAligned act }
    ensures { (key value : List ℕ) → IsBytes decl.now.value value → IfOk result (Gives part (wires_of wires.old.items) (wires_of wires.new.items) (old ∷ operands.now)
        (λ v. number_in v old ≡ word_at value w) (λ v. word_at (value_as (operation_with decl.now act key (numbers_in v operands.now)) value) w) 64) }
{
    match act {
        Act::Update => {
            let out = value_word(alloc, wires, part, operands, decl.value, w)?;
            Ok(out)
        }
        Act::Store(at, size) => {
            let number = operand_at(operands, 0);
            let out = patched_word(alloc, wires, part, old, w, at, size, number)?;
            Ok(out)
        }
        Act::Atomic(at, atomic) => {
            let source = operand_at(operands, 0);
            let compare = operand_at(operands, 1);
            let out = changed_word(alloc, wires, part, old, w, at, atomic, source, compare)?;
            Ok(out)
        }
        _ => Ok(old),
    }
}

/// A word of the value that the operation of a site makes of the one it finds: an update puts its own there, a store and an atomic change
/// some bytes, and others leave it.
pub fn word_after<P: Copy>(
    alloc: Global,
    wires: &mut Vec<BlockWire<Name<P>>>,
    part: P,
    act: Act,
    decl: &MapDecl,
    nets: &SiteNets<Name<P>>,
    w: u32,
    old: Operand<Name<P>>,
) -> Result<Operand<Name<P>>, AllocError>
    requires old { IsOperand old }
    requires word { HasBits 64 old }
    requires operands { All IsOperand nets.now.operands.items }
    requires few { decl.now.value ≤ 64 }
    requires words { HasWords decl.now.value act (length nets.now.operands.items) }
    requires inside { IsInside decl.now.value act }
    requires aligned { IsAligned act }
    ensures operand { IfOk result IsOperand }
    ensures bits { IfOk result (HasBits 64) }
    ensures gives { (p : ProgramView) (decls : List MapDecl) (h : StageValues) (j : ℕ) (value : List ℕ) → let s = site_at p.sites j in
        s.act ≡ act → decl_of decls s.map ≡ decl.now → IsBytes decl.now.value value
        → IfOk result (Gives part (wires_of wires.old.items) (wires_of wires.new.items) (old ∷ nets.now.operands.items)
        (λ v. (number_in v old ≡ word_at value w) × ShowsAsked v p h j (operands_of nets.now)) (λ v. word_at (value_as (asked decls h s) value) w) 64) }
{
    let out = word_as(alloc, wires, part, act, decl, &nets.operands, w, old)?;
    Ok(out)
}
