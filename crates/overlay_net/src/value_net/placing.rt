//! Bits put in place of some of a word.

ghost use Rattle.std.specs.Prelude.{[], ◌∷◌, ◌≡◌, ◌+◌, ◌*◌, ◌/◌, ◌%◌, ◌^◌, ◌<◌, ◌≤◌, IfOk};
ghost use Rattle.hazard_core.specs.cell_core.Cells.{bits_from};
ghost use Rattle.cell_nets.specs.Operands.{IsOperand, IsWide, number_in};
ghost use Rattle.cell_nets.specs.Wires.{wires_of, always, HasBits, Gives};
ghost use Rattle.overlay_net.specs.ValueNet.Words.{with_bits};

use crate::value_net::operating::pair;
use block_core::block::BlockWire;
use block_core::name::Name;
use cell_nets::cell_core::operator::Operator;
use cell_nets::operand::Operand;
use cell_nets::wires::cut;
use std::alloc::{AllocError, Global};

/// Bits of a word below others.
fn below<P: Copy>(
    alloc: Global,
    wires: &mut Vec<BlockWire<Name<P>>>,
    part: P,
    piece: Operand<Name<P>>,
    old: Operand<Name<P>>,
    from: u8,
    width: u8,
) -> Result<Operand<Name<P>>, AllocError>
    requires piece { IsOperand piece }
    requires old { IsOperand old }
    requires bits { HasBits width piece }
    requires some { 0 < width }
    requires inside { from + width ≤ 64 }
    ensures { IfOk result (Gives part (wires_of wires.old.items) (wires_of wires.new.items) (piece ∷ old ∷ []) always (λ v. number_in v old % 2 ^ from + 2 ^ from * number_in v piece) (from + width)) }
{
    if from == 0 {
        return Ok(piece);
    }
    let low = cut(alloc, wires, part, old, 0, from)?;
    let out = pair(
        alloc,
        wires,
        part,
        Operator::Join(from as u32),
        piece,
        low,
        from + width,
    )?;
    Ok(out)
}

/// Those of a word from one on above others.
fn above<P: Copy>(
    alloc: Global,
    wires: &mut Vec<BlockWire<Name<P>>>,
    part: P,
    filled: Operand<Name<P>>,
    old: Operand<Name<P>>,
    from: u8,
) -> Result<Operand<Name<P>>, AllocError>
    requires filled { IsOperand filled }
    requires old { IsOperand old }
    requires bits { HasBits from filled }
    requires inside { from ≤ 64 }
    ensures { IfOk result (Gives part (wires_of wires.old.items) (wires_of wires.new.items) (filled ∷ old ∷ []) always (λ v. number_in v filled + 2 ^ from * (number_in v old / 2 ^ from)) 64) }
{
    if from == 64 {
        return Ok(filled);
    }
    let high = cut(alloc, wires, part, old, from, 64 - from)?;
    let out = pair(
        alloc,
        wires,
        part,
        Operator::Join(from as u32),
        high,
        filled,
        64,
    )?;
    Ok(out)
}

/// A word whose bits from one on, so many, are those of another operand.
pub(crate) fn with_bits<P: Copy>(
    alloc: Global,
    wires: &mut Vec<BlockWire<Name<P>>>,
    part: P,
    old: Operand<Name<P>>,
    from: u8,
    width: u8,
    new: Operand<Name<P>>,
) -> Result<Operand<Name<P>>, AllocError>
    requires old { IsOperand old }
    requires new { IsOperand new }
    requires some { 0 < width }
    requires inside { from + width ≤ 64 }
    ensures { IfOk result (Gives part (wires_of wires.old.items) (wires_of wires.new.items) (old ∷ new ∷ []) always (λ v. with_bits (number_in v old) from width (number_in v new)) 64) }
{
    let piece = cut(alloc, wires, part, new, 0, width)?;
    let filled = below(alloc, wires, part, piece, old, from, width)?;
    let out = above(alloc, wires, part, filled, old, from + width)?;
    Ok(out)
}
