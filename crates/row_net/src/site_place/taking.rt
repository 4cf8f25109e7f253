//! The registers of a place for the pointers that it carries.

ghost use Rattle.std.specs.Prelude.{◌≡◌, ◌+◌, ◌<◌, List, All, length, IfOk};
ghost use Rattle.overlay_net.specs.cell_core.Cells.{CellView};
ghost use Rattle.cell_nets.specs.Operands.{IsWide};
ghost use Rattle.row_net.specs.SitePlace.Pointing.{IsPointers};
ghost use Rattle.row_net.specs.SitePlace.SitePlace.{AreTaken};

use block_core::name::{Name, Part};
use cell_nets::operand::Operand;
use std::alloc::AllocError;

// The number of a register after so many others. Of 2^32 registers a part has no room for more, as where memory is out.
fn number_behind(first: usize, i: usize) -> Result<u32, AllocError>
    ensures { IfOk result (λ n. n ≡ first + i) }
{
    let Some(number) = first.checked_add(i) else {
        return Err(AllocError);
    };
    match u32::try_from(number) {
        Ok(register) => Ok(register),
        Err(_) => Err(AllocError),
    }
}

/// Puts the registers of a place into a table of pointers, for those that it carries: they stand for these at the next place. They are
/// after so many others, those of the cells that it carries.
pub fn take_pointers<P: Part>(
    part: P,
    bits: u8,
    first: usize,
    carried: &[u32],
    pointers: &mut Vec<Option<Operand<Name<P>>>>,
) -> Result<(), AllocError>
    requires bits { IsWide bits }
    requires within { All (λ k. k < length pointers.old.items) carried.now }
    ensures { (cells : List CellView) → IsPointers cells bits pointers.old.items → IfOk result (λ done. AreTaken part cells bits first carried.now pointers.old.items pointers.new.items) }
{
    for (i, number) in carried.iter().enumerate() {
        let register = number_behind(first, i)?;
        pointers[*number as usize] = Some(Operand::Net(Name::Register(part, register), bits));
    }
    Ok(())
}
