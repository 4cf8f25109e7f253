//! Whether two keys are the same.

ghost use Rattle.std.specs.Prelude.{ℕ, [], ◌∷◌, ◌==◌, ◌*◌, ◌≤◌, ◌++◌, All, length, IfOk, map as map_list};
ghost use Rattle.std.specs.Str.{bytes_eq};
ghost use Rattle.hazard_core.specs.cell_core.Cells.{bit, bits_from};
ghost use Rattle.hazard_core.specs.cell_core.Sites.{bytes_of};
ghost use Rattle.cell_nets.specs.Operands.{IsOperand, IsWide, number_in};
ghost use Rattle.cell_nets.specs.Wires.{wires_of, always, Gives};

use block_core::block::BlockWire;
use block_core::name::Name;
use cell_nets::operand::Operand;
use cell_nets::step_nets::{both, equal};
use cell_nets::wires::cut;
use std::alloc::{AllocError, Global};

/// Whether so many low bits of two operands are the same.
fn same_word<P: Copy>(
    alloc: Global,
    wires: &mut Vec<BlockWire<Name<P>>>,
    part: P,
    width: u8,
    a: Operand<Name<P>>,
    b: Operand<Name<P>>,
) -> Result<Operand<Name<P>>, AllocError>
    requires width { IsWide width }
    requires left { IsOperand a }
    requires right { IsOperand b }
    ensures { IfOk result (Gives part (wires_of wires.old.items) (wires_of wires.new.items) (a ∷ b ∷ []) always (λ v. bit (bits_from (number_in v a) 0 width == bits_from (number_in v b) 0 width)) 1) }
{
    let left = cut(alloc, wires, part, a, 0, width)?;
    let right = cut(alloc, wires, part, b, 0, width)?;
    let out = equal(alloc, wires, part, left, right)?;
    Ok(out)
}

/// Whether keys of so many bytes are the same, by their words: 1 or 0. Of a last word that is not whole the low bytes count alone.
pub fn same_key<P: Copy>(
    alloc: Global,
    wires: &mut Vec<BlockWire<Name<P>>>,
    part: P,
    bytes: u32,
    a: &[Operand<Name<P>>],
    b: &[Operand<Name<P>>],
) -> Result<Operand<Name<P>>, AllocError>
    requires left { All IsOperand a.now }
    requires right { All IsOperand b.now }
    requires left_words { bytes ≤ 8 * length a.now }
    requires right_words { bytes ≤ 8 * length b.now }
    ensures { IfOk result (Gives part (wires_of wires.old.items) (wires_of wires.new.items) (a.now ++ b.now) always (λ v. bit (bytes_eq (bytes_of bytes (map_list (number_in v) a.now)) (bytes_of bytes (map_list (number_in v) b.now)))) 1) }
{
    let mut at = (bytes as usize + 7) / 8;
    let mut same = Operand::Known(1);
    while at > 0 {
        at -= 1;
        let width = (8 * (bytes as usize - 8 * at).min(8)) as u8;
        let word = same_word(alloc, wires, part, width, a[at], b[at])?;
        same = both(alloc, wires, part, same, word)?;
    }
    Ok(same)
}
