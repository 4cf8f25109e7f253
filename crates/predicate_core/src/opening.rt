//! What a machine holds where a packet comes in.

ghost use Rattle.std.specs.Prelude.{◌≡◌, length, IfOk};
ghost use Rattle.operator_cells.specs.Making.{seen};
ghost use Rattle.predicate_core.specs.Opening.{AreBytes, Opens};

use cell_core::cell::Cell;
use cell_core::operator::Operator;
use kind_core::{Kinds, Offsets};
use operator_cells::cells::{constant, operate};
use operator_cells::held_cells::machine_cells::RegisterCells;
use operator_cells::held_cells::way::Way;
use std::alloc::AllocError;

// The first bytes of the packet.
fn bytes(cells: &mut Vec<Cell>) -> Result<[u32; 256], AllocError>
    ensures { IfOk result (λ window. AreBytes (seen cells.old.items) (seen cells.new.items) 256 window) }
{
    let mut window = [0; 256];
    for i in 0..256 {
        let c = operate(cells, Operator::Byte(i), &[], 0, 8)?;
        window[i as usize] = c;
    }
    Ok(window)
}

/// The edge to the first node, with what a machine holds at the start.
pub fn open(cells: &mut Vec<Cell>) -> Result<Way, AllocError>
    ensures { IfOk result (λ e. Opens (seen cells.old.items) (seen cells.new.items) e) }
{
    let bit = constant(cells, 1, 1)?;
    let window = bytes(cells)?;
    let target = constant(cells, 0, 32)?;
    let held = RegisterCells {
        registers: [0; 11],
        slots: [0; 64],
        window,
        target,
    };
    Ok(Way {
        to: 0,
        bit,
        kinds: Kinds::start(Offsets::Fixed),
        held,
    })
}
