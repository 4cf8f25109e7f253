//! The edges that leave a node along a jump, and ends.

ghost use Rattle.std.specs.Prelude.{◌≡◌, ◌+◌, ◌<◌, ◌≤◌, max, true, length, slice_index, IfOk};
ghost use Rattle.xdp_machine.specs.bpf_isa.Spelling.{IsInsn};
ghost use Rattle.kind_core.specs.Kinds.{register};
ghost use Rattle.kind_core.specs.Effects.{operand};
ghost use Rattle.cell_core.specs.Formed.{AreFormed};
ghost use Rattle.operator_cells.specs.Making.{seen};
ghost use Rattle.operator_cells.specs.Rising.{Rises};
ghost use Rattle.operator_cells.specs.row_rules.PlaceRows.Spans.{one, span_row};
ghost use Rattle.operator_cells.specs.row_rules.PlaceRows.Reading.{right_of};
ghost use Rattle.operator_cells.specs.HeldCells.RegisterCells.{pointed};
ghost use Rattle.operator_cells.specs.HeldCells.Rows.{held_row};
ghost use Rattle.edge_cells.specs.Meeting.{number_in};
ghost use Rattle.edge_cells.specs.Testing.{is_open, IsReady};
ghost use Rattle.edge_cells.specs.Leaving.{operand_held, TestsJump, IsThere, Branches, IsBranch, condition_row};

use crate::joining::Here;
use crate::part::number_in;
use crate::testing::condition;
use cell_core::cell::Cell;
use kind_core::{Kind, Kinds, Number, transfer};
use operator_cells::held_cells::machine_cells::{Pointer, RegisterCells};
use operator_cells::held_cells::way::{Exit, Way};
use operator_cells::leaving::edge;
use std::alloc::AllocError;
use xdp_machine::bpf_isa::{Insn, JumpCode, Src, Width};
use xdp_machine::xdp_maps::decl::MapDecl;

// The kind of the second operand.
fn operand(kinds: &Kinds, insn: &Insn, src: Src) -> Kind
    requires { insn.now.src ≤ 10 }
    ensures { result ≡ operand kinds.now insn.now src }
{
    match src {
        Src::K => Kind::Num(Number::Known(insn.imm.cast_unsigned())),
        Src::X => kinds.registers[insn.src as usize],
    }
}

// Its cell, or its pointer.
fn operand_held(held: &RegisterCells, insn: &Insn, src: Src) -> u32
    requires { insn.now.src ≤ 10 }
    ensures { result ≡ operand_held held.now insn.now src }
{
    match src {
        Src::K => 0,
        Src::X => held.registers[insn.src as usize],
    }
}

/// The condition of an undecided jump at a node: a bit that is 1 where the jump is taken.
pub fn jump_condition(
    cells: &mut Vec<Cell>,
    pointers: &[Pointer],
    kinds: &Kinds,
    held: &RegisterCells,
    insn: &Insn,
    width: Width,
    code: JumpCode,
    src: Src,
) -> Result<u32, AllocError>
    requires formed { AreFormed (seen cells.old.items) }
    requires dst { insn.now.dst ≤ 10 }
    requires src { insn.now.src ≤ 10 }
    requires left { IsReady (length (seen cells.old.items)) (pointed pointers.now) (register kinds.now insn.now.dst) (slice_index held.now.registers insn.now.dst) }
    requires right { IsReady (length (seen cells.old.items)) (pointed pointers.now) (operand kinds.now insn.now src) (operand_held held.now insn.now src) }
    requires undecided { is_open width code (register kinds.now insn.now.dst) (operand kinds.now insn.now src) ≡ true }
    ensures tests { IfOk result (λ c. TestsJump (pointed pointers.now) kinds.now held.now insn.now width code src (seen cells.old.items) (seen cells.new.items) c) }
    ensures rises { IfOk result (λ c. Rises (seen cells.old.items) (seen cells.new.items) c (λ row. 1 + max (span_row (held_row row (pointed pointers.now) held.now kinds.now) (one insn.now.dst)) (span_row (held_row row (pointed pointers.now) held.now kinds.now) (right_of insn.now src)))) }
{
    let a = kinds.registers[insn.dst as usize];
    let p = held.registers[insn.dst as usize];
    let b = operand(kinds, insn, src);
    let q = operand_held(held, insn, src);
    let c = condition(cells, pointers, width, code, a, p, b, q)?;
    Ok(c)
}

// The bit of an edge: the guard, and where there is a condition that it goes this way.
fn branch(
    cells: &mut Vec<Cell>,
    guard: u32,
    condition: Option<u32>,
    taken: bool,
) -> Result<u32, AllocError>
    requires guard { guard < length (seen cells.old.items) }
    requires condition { IsThere (length (seen cells.old.items)) condition }
    ensures branches { IfOk result (λ c. Branches (seen cells.old.items) (seen cells.new.items) guard condition taken c) }
    ensures rises { IfOk result (λ c. Rises (seen cells.old.items) (seen cells.new.items) c (λ row. max (row guard) (condition_row row condition))) }
{
    match condition {
        Some(c) => {
            let bit = edge(cells, guard, c, taken)?;
            Ok(bit)
        }
        None => Ok(guard),
    }
}

/// An edge of a jump, to a node: of an undecided jump, whose condition is given, it is on where the guard is and the jump goes along it; any
/// other edge is on where the guard is.
pub fn leave_edge(
    cells: &mut Vec<Cell>,
    decls: &[MapDecl],
    node: u32,
    kinds: &Kinds,
    here: &Here,
    insn: &Insn,
    condition: Option<u32>,
    taken: bool,
    to: u32,
) -> Result<Way, AllocError>
    requires legal { IsInsn insn.now }
    requires guard { here.now.guard < length (seen cells.old.items) }
    requires condition { IsThere (length (seen cells.old.items)) condition }
    ensures branch { IfOk result (λ e. IsBranch decls.now (seen cells.old.items) (seen cells.new.items) node kinds.now here.now.held here.now.guard insn.now condition taken to e) }
    ensures rises { IfOk result (λ e. Rises (seen cells.old.items) (seen cells.new.items) e.bit (λ row. max (row here.now.guard) (condition_row row condition))) }
{
    let bit = branch(cells, here.guard, condition, taken)?;
    Ok(Way {
        to,
        bit,
        kinds: transfer(insn, kinds, decls, node, false, taken),
        held: here.held,
    })
}

/// The end of a node: what is held there leaves with the packet.
pub fn leave_exit(here: &Here, kinds: &Kinds) -> Exit
    ensures guard { result.guard ≡ here.now.guard }
    ensures verdict { result.verdict ≡ number_in (register kinds.now 0) }
    ensures held { result.held ≡ here.now.held }
{
    Exit {
        guard: here.guard,
        verdict: number_in(kinds.registers[0]),
        held: here.held,
    }
}
