//! Nodes whose instructions lead on along one edge.

ghost use Rattle.std.specs.Prelude.{ℕ, ◌≡◌, ◌++◌, false, Some, List, length, map as map_list, IfOk, All};
ghost use Rattle.xdp_machine.specs.bpf_isa.Spelling.{IsInsn};
ghost use Rattle.kind_core.specs.Edges.{transferred};
ghost use Rattle.cell_core.specs.Cells.{CellView};
ghost use Rattle.operator_cells.specs.declared.held_cells.way.Way.{Way};
ghost use Rattle.operator_cells.specs.HeldCells.Rows.{LeaveTo};
ghost use Rattle.edge_cells.specs.NodeCells.Ends.{brought, brought_along};
ghost use Rattle.edge_cells.specs.NodeCells.Stepping.{StepsOn};

use kind_core::laws::{later_describes, steps_are_sound};
use kind_core::{Kind, Kinds, transfer};
use operator_cells::held_cells::machine_cells::RegisterCells;
use operator_cells::held_cells::way::Way;
use std::alloc::AllocError;
use xdp_machine::bpf_isa::Insn;
use xdp_machine::laws::{steps_change_only, steps_keep_ranges};
use xdp_machine::xdp_maps::decl::MapDecl;

// Kinds are those of 11 registers and 64 slots.
fn are_whole(kinds: &Kinds)
    ensures registers { length kinds.now.registers ≡ 11 }
    ensures slots { length kinds.now.slots ≡ 64 }
{
    let _registers: &[Kind] = &kinds.registers;
    let _slots: &[Kind] = &kinds.slots;
}

/// A node whose instruction leads on to this node, after the cells of the instruction: its edge is on where the guard is, with what is held
/// after the instruction. `is_ref` tells whether the place is a reference to a map.
pub fn step_on(
    decls: &[MapDecl],
    node: u32,
    kinds: &Kinds,
    insn: &Insn,
    is_ref: bool,
    guard: u32,
    held: &RegisterCells,
    to: u32,
    ways: &mut Vec<Way>,
) -> Result<(), AllocError>
    requires { IsInsn insn.now }
    ensures steps { IfOk result (λ done. StepsOn decls.now node kinds.now insn.now is_ref guard held.now to ways.old.items ways.new.items) }
    ensures brought { IfOk result (λ done. map_list brought ways.new.items ≡ map_list brought ways.old.items ++ brought_along decls.now node kinds.now insn.now is_ref false (Some to)) }
    ensures rows { (cells : List CellView) → IfOk result (λ done. LeaveTo cells cells ways.old.items ways.new.items held.now (λ row. row guard)) }
    ensures points { IfOk result (λ done. (more : List Way) × (ways.new.items ≡ ways.old.items ++ more) × All (λ e. (e.to ≡ to) × (e.bit ≡ guard) × (e.kinds ≡ transferred decls.now kinds.now insn.now node is_ref false) × (e.held ≡ held.now)) more) }
    ensures kept { IfOk result (λ done. (more : List Way) × (ways.new.items ≡ ways.old.items ++ more)) }
{
    steps_are_sound();
    later_describes();
    steps_change_only();
    steps_keep_ranges();
    are_whole(kinds);
    let edge = Way {
        to,
        bit: guard,
        kinds: transfer(insn, kinds, decls, node, is_ref, false),
        held: *held,
    };
    ways.push(edge)?;
    Ok(())
}
