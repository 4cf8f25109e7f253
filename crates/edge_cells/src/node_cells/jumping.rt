//! Nodes with jumps.

ghost use Rattle.std.specs.Prelude.{◌≡◌, ◌<◌, ◌++◌, false, true, Some, None, List, length, map as map_list, IfOk};
ghost use Rattle.xdp_machine.specs.bpf_isa.Spelling.{IsInsn};
ghost use Rattle.kind_core.specs.Tests.{passed};
ghost use Rattle.kind_core.specs.Effects.{effect_of, verdict};
ghost use Rattle.kind_core.specs.Edges.{decided};
ghost use Rattle.cell_core.specs.Formed.{AreFormed};
ghost use Rattle.operator_cells.specs.Making.{seen, Grows};
ghost use Rattle.operator_cells.specs.declared.held_cells.way.Way.{Way};
ghost use Rattle.operator_cells.specs.HeldCells.RegisterCells.{pointed, AreInside};
ghost use Rattle.operator_cells.specs.HeldCells.Rows.{held_row, leaving_row, LeaveTo};
ghost use Rattle.operator_cells.specs.HeldCells.Pointing.{LeavePoints};
ghost use Rattle.edge_cells.specs.NodeCells.Ends.{ArePresent, brought, brought_along, all_brought};
ghost use Rattle.edge_cells.specs.NodeCells.Stepping.{JumpSteps, EdgeSteps};

use crate::joining::Here;
use crate::laws::{
    edges_are_inside, edges_are_known, jumps_are_tested, operands_are_ready,
    single_edges_are_known, undecided_are_open,
};
use crate::leaving::{jump_condition, leave_edge};
use cell_core::cell::Cell;
use kind_core::Kinds;
use kind_core::laws::conditions_are_sound;
use operator_cells::held_cells::machine_cells::Pointer;
use operator_cells::held_cells::way::Way;
use std::alloc::AllocError;
use xdp_machine::bpf_isa::{Insn, JumpCode, Op, Src, Width};
use xdp_machine::xdp_maps::decl::MapDecl;

// An undecided jump: both edges, by its condition.
fn step_both(
    cells: &mut Vec<Cell>,
    pointers: &[Pointer],
    decls: &[MapDecl],
    node: u32,
    kinds: &Kinds,
    here: &Here,
    insn: &Insn,
    width: Width,
    code: JumpCode,
    src: Src,
    next: u32,
    jump: u32,
    ways: &mut Vec<Way>,
) -> Result<(), AllocError>
    requires insn { IsInsn insn.now }
    requires op { insn.now.op ≡ Op.Jump width code src }
    requires formed { AreFormed (seen cells.old.items) }
    requires guard { here.now.guard < length (seen cells.old.items) }
    requires inside { AreInside decls.now (length (seen cells.old.items)) (pointed pointers.now) here.now.held kinds.now }
    requires allowed { verdict (effect_of decls.now kinds.now insn.now) ≡ passed }
    requires undecided { decided kinds.now insn.now ≡ None }
    ensures steps { IfOk result (λ done. JumpSteps decls.now node kinds.now here.now insn.now (Some next) (Some jump) (seen cells.old.items) (seen cells.new.items) (pointed pointers.now) ways.old.items ways.new.items) }
    ensures brought { IfOk result (λ done. map_list brought ways.new.items ≡ map_list brought ways.old.items ++ all_brought decls.now node kinds.now insn.now false (Some next) (Some jump)) }
    ensures rows { IfOk result (λ done. LeaveTo (seen cells.old.items) (seen cells.new.items) ways.old.items ways.new.items here.now.held (λ row. leaving_row (held_row row (pointed pointers.now) here.now.held kinds.now) kinds.now insn.now (row here.now.guard))) }
    ensures points { IfOk result (λ done. LeavePoints (seen cells.new.items) (pointed pointers.now) kinds.now here.now.held here.now.guard ways.old.items ways.new.items) }
    ensures grows { IfOk result (λ done. Grows (seen cells.old.items) (seen cells.new.items)) }
    ensures kept { IfOk result (λ done. (more : List Way) × (ways.new.items ≡ ways.old.items ++ more)) }
{
    conditions_are_sound();
    jumps_are_tested();
    edges_are_inside();
    edges_are_known();
    single_edges_are_known();
    operands_are_ready();
    undecided_are_open();
    let c = jump_condition(cells, pointers, kinds, &here.held, insn, width, code, src)?;
    let along = leave_edge(cells, decls, node, kinds, here, insn, Some(c), false, next)?;
    let aside = leave_edge(cells, decls, node, kinds, here, insn, Some(c), true, jump)?;
    ways.push(along)?;
    ways.push(aside)?;
    Ok(())
}

// A decided jump: the edge that is present is on where the guard is.
fn step_one(
    cells: &mut Vec<Cell>,
    pointers: &[Pointer],
    decls: &[MapDecl],
    node: u32,
    kinds: &Kinds,
    here: &Here,
    insn: &Insn,
    width: Width,
    code: JumpCode,
    src: Src,
    taken: bool,
    to: u32,
    ways: &mut Vec<Way>,
) -> Result<(), AllocError>
    requires insn { IsInsn insn.now }
    requires op { insn.now.op ≡ Op.Jump width code src }
    requires guard { here.now.guard < length (seen cells.old.items) }
    requires inside { AreInside decls.now (length (seen cells.old.items)) (pointed pointers.now) here.now.held kinds.now }
    requires decided { decided kinds.now insn.now ≡ Some taken }
    ensures steps { IfOk result (λ done. EdgeSteps decls.now node kinds.now here.now insn.now taken to (seen cells.old.items) (seen cells.new.items) (pointed pointers.now) ways.old.items ways.new.items) }
    ensures brought { IfOk result (λ done. map_list brought ways.new.items ≡ map_list brought ways.old.items ++ brought_along decls.now node kinds.now insn.now false taken (Some to)) }
    ensures rows { IfOk result (λ done. LeaveTo (seen cells.old.items) (seen cells.new.items) ways.old.items ways.new.items here.now.held (λ row. leaving_row (held_row row (pointed pointers.now) here.now.held kinds.now) kinds.now insn.now (row here.now.guard))) }
    ensures points { IfOk result (λ done. LeavePoints (seen cells.new.items) (pointed pointers.now) kinds.now here.now.held here.now.guard ways.old.items ways.new.items) }
    ensures grows { IfOk result (λ done. Grows (seen cells.old.items) (seen cells.new.items)) }
    ensures kept { IfOk result (λ done. (more : List Way) × (ways.new.items ≡ ways.old.items ++ more)) }
{
    conditions_are_sound();
    jumps_are_tested();
    edges_are_inside();
    edges_are_known();
    single_edges_are_known();
    let edge = leave_edge(cells, decls, node, kinds, here, insn, None, taken, to)?;
    ways.push(edge)?;
    Ok(())
}

/// A node with a conditional jump, whose edges to the next place and of the jump lead to these nodes, where they are present. Where both are
/// each is on where the guard is and the jump goes along it, else the one is on where the guard is.
pub fn step_jump(
    cells: &mut Vec<Cell>,
    pointers: &[Pointer],
    decls: &[MapDecl],
    node: u32,
    kinds: &Kinds,
    here: &Here,
    insn: &Insn,
    width: Width,
    code: JumpCode,
    src: Src,
    next: Option<u32>,
    jump: Option<u32>,
    ways: &mut Vec<Way>,
) -> Result<(), AllocError>
    requires insn { IsInsn insn.now }
    requires op { insn.now.op ≡ Op.Jump width code src }
    requires formed { AreFormed (seen cells.old.items) }
    requires guard { here.now.guard < length (seen cells.old.items) }
    requires inside { AreInside decls.now (length (seen cells.old.items)) (pointed pointers.now) here.now.held kinds.now }
    requires allowed { verdict (effect_of decls.now kinds.now insn.now) ≡ passed }
    requires present { ArePresent kinds.now insn.now next jump }
    ensures steps { IfOk result (λ done. JumpSteps decls.now node kinds.now here.now insn.now next jump (seen cells.old.items) (seen cells.new.items) (pointed pointers.now) ways.old.items ways.new.items) }
    ensures brought { IfOk result (λ done. map_list brought ways.new.items ≡ map_list brought ways.old.items ++ all_brought decls.now node kinds.now insn.now false next jump) }
    ensures rows { IfOk result (λ done. LeaveTo (seen cells.old.items) (seen cells.new.items) ways.old.items ways.new.items here.now.held (λ row. leaving_row (held_row row (pointed pointers.now) here.now.held kinds.now) kinds.now insn.now (row here.now.guard))) }
    ensures points { IfOk result (λ done. LeavePoints (seen cells.new.items) (pointed pointers.now) kinds.now here.now.held here.now.guard ways.old.items ways.new.items) }
    ensures grows { IfOk result (λ done. Grows (seen cells.old.items) (seen cells.new.items)) }
    ensures kept { IfOk result (λ done. (more : List Way) × (ways.new.items ≡ ways.old.items ++ more)) }
{
    match (next, jump) {
        (Some(next), Some(jump)) => {
            step_both(
                cells, pointers, decls, node, kinds, here, insn, width, code, src, next, jump, ways,
            )
        }
        (Some(to), None) => step_one(
            cells, pointers, decls, node, kinds, here, insn, width, code, src, false, to, ways,
        ),
        (None, Some(to)) => step_one(
            cells, pointers, decls, node, kinds, here, insn, width, code, src, true, to, ways,
        ),
        (None, None) => Ok(()),
    }
}

/// A node with a jump without a condition, whose edge leads to this node: it is on where the guard is.
pub fn step_always(
    cells: &mut Vec<Cell>,
    pointers: &[Pointer],
    decls: &[MapDecl],
    node: u32,
    kinds: &Kinds,
    here: &Here,
    insn: &Insn,
    width: Width,
    to: u32,
    ways: &mut Vec<Way>,
) -> Result<(), AllocError>
    requires insn { IsInsn insn.now }
    requires op { insn.now.op ≡ Op.Ja width }
    requires guard { here.now.guard < length (seen cells.old.items) }
    requires inside { AreInside decls.now (length (seen cells.old.items)) (pointed pointers.now) here.now.held kinds.now }
    ensures steps { IfOk result (λ done. EdgeSteps decls.now node kinds.now here.now insn.now true to (seen cells.old.items) (seen cells.new.items) (pointed pointers.now) ways.old.items ways.new.items) }
    ensures brought { IfOk result (λ done. map_list brought ways.new.items ≡ map_list brought ways.old.items ++ brought_along decls.now node kinds.now insn.now false true (Some to)) }
    ensures rows { IfOk result (λ done. LeaveTo (seen cells.old.items) (seen cells.new.items) ways.old.items ways.new.items here.now.held (λ row. row here.now.guard)) }
    ensures points { IfOk result (λ done. LeavePoints (seen cells.new.items) (pointed pointers.now) kinds.now here.now.held here.now.guard ways.old.items ways.new.items) }
    ensures grows { IfOk result (λ done. Grows (seen cells.old.items) (seen cells.new.items)) }
    ensures kept { IfOk result (λ done. (more : List Way) × (ways.new.items ≡ ways.old.items ++ more)) }
{
    conditions_are_sound();
    jumps_are_tested();
    edges_are_inside();
    edges_are_known();
    single_edges_are_known();
    let edge = leave_edge(cells, decls, node, kinds, here, insn, None, true, to)?;
    ways.push(edge)?;
    Ok(())
}
