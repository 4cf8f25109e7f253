// How many registers, slots and bytes there are.

ghost use Rattle.std.specs.Prelude.{◌≡◌, length};

use kind_core::{Kind, Kinds};
use operator_cells::held_cells::machine_cells::RegisterCells;

/// Kinds and cells are those of 11 registers, 64 slots and 256 bytes.
pub(crate) fn are_whole(held: &RegisterCells, kinds: &Kinds)
    ensures registers { length kinds.now.registers ≡ 11 }
    ensures slots { length kinds.now.slots ≡ 64 }
    ensures register_cells { length held.now.registers ≡ 11 }
    ensures slot_cells { length held.now.slots ≡ 64 }
    ensures window { length held.now.window ≡ 256 }
{
    let _registers: &[Kind] = &kinds.registers;
    let _slots: &[Kind] = &kinds.slots;
    let _register_cells: &[u32] = &held.registers;
    let _slot_cells: &[u32] = &held.slots;
    let _window: &[u32] = &held.window;
}
