//! The code of a node.

ghost use Rattle.std.specs.Prelude.{◌≡◌, ◌<◌, ◌≤◌, ◌++◌, ℕ, true, None, List, length, map as map_list, is_some, All, IfOk};
ghost use Rattle.xdp_machine.specs.bpf_isa.Spelling.{IsInsn};
ghost use Rattle.kind_core.specs.Tests.{passed};
ghost use Rattle.kind_core.specs.Effects.{effect_of, verdict};
ghost use Rattle.kind_core.specs.Kinds as kind;
ghost use Rattle.cell_core.specs.Formed.{AreFormed};
ghost use Rattle.operator_cells.specs.Making.{seen};
ghost use Rattle.operator_cells.specs.declared.held_cells.way.Way.{Way};
ghost use Rattle.operator_cells.specs.HeldCells.RegisterCells.{pointed, AreInside};
ghost use Rattle.edge_cells.specs.NodeCells.Ends.{AreEnds, brought, all_brought, leads_on};
ghost use Rattle.predicate_core.specs.StepCells.Stepping.{made_of, NodeSteps};
ghost use Rattle.predicate_core.specs.StepCells.Rows.{NodeRows};
ghost use Rattle.predicate_core.specs.StepCells.Pointing.{NodePoints};

use crate::step_cells::made::Made;
use crate::step_cells::operating::operate_at;
use edge_cells::joining::Here;
use edge_cells::node_cells::ending::step_exit;
use edge_cells::node_cells::jumping::{step_always, step_jump};
use edge_cells::node_cells::leading::step_on;
use kind_core::Kinds;
use std::alloc::AllocError;
use xdp_machine::bpf_isa::{Insn, Op, Width};
use xdp_machine::xdp_maps::decl::MapDecl;

// A node with a jump without a condition.
fn step_away(
    made: &mut Made,
    decls: &[MapDecl],
    node: u32,
    kinds: &Kinds,
    here: &Here,
    insn: &Insn,
    width: Width,
    is_ref: bool,
    jump: Option<u32>,
) -> Result<(), AllocError>
    requires insn { IsInsn insn.now }
    requires op { insn.now.op ≡ Op.Ja width }
    requires guard { here.now.guard < length (seen made.old.cells.items) }
    requires inside { AreInside decls.now (length (seen made.old.cells.items)) (pointed made.old.pointers.items) here.now.held kinds.now }
    requires present { is_some jump ≡ true }
    ensures steps { IfOk result (λ done. NodeSteps decls.now node kinds.now here.now insn.now is_ref None jump (made_of made.old) (made_of made.new)) }
    ensures brought { IfOk result (λ done. map_list brought made.new.ways.items ≡ map_list brought made.old.ways.items ++ all_brought decls.now node kinds.now insn.now is_ref None jump) }
    ensures rows { (pending : List ℕ) → IfOk result (λ done. NodeRows decls.now node kinds.now here.now insn.now is_ref pending (made_of made.old) (made_of made.new)) }
    ensures points { (pending : List ℕ) → IfOk result (λ done. NodePoints decls.now insn.now pending kinds.now here.now (made_of made.old) (made_of made.new)) }
    ensures kept { IfOk result (λ done. (more : List Way) × (made.new.ways.items ≡ made.old.ways.items ++ more)) }
{
    match jump {
        Some(to) => step_always(
            &mut made.cells,
            &made.pointers,
            decls,
            node,
            kinds,
            here,
            insn,
            width,
            to,
            &mut made.ways,
        ),
        None => Ok(()),
    }
}

// A node whose instruction leads on.
fn step_along(
    made: &mut Made,
    decls: &[MapDecl],
    node: u32,
    kinds: &Kinds,
    here: &Here,
    insn: &Insn,
    is_ref: bool,
    next: Option<u32>,
    pending: &[u32],
) -> Result<(), AllocError>
    requires insn { IsInsn insn.now }
    requires leads { leads_on insn.now.op ≡ true }
    requires formed { AreFormed (seen made.old.cells.items) }
    requires guard { here.now.guard < length (seen made.old.cells.items) }
    requires inside { AreInside decls.now (length (seen made.old.cells.items)) (pointed made.old.pointers.items) here.now.held kinds.now }
    requires allowed { verdict (effect_of decls.now kinds.now insn.now) ≡ passed }
    requires keys { (q : ℕ) → kind.key_bytes decls.now q ≤ 64 }
    requires values { (q : ℕ) → kind.value_bytes decls.now q ≤ 64 }
    requires pending { All (λ c. c < length (seen made.old.cells.items)) pending.now }
    requires present { is_some next ≡ true }
    ensures steps { IfOk result (λ done. NodeSteps decls.now node kinds.now here.now insn.now is_ref next None (made_of made.old) (made_of made.new)) }
    ensures brought { IfOk result (λ done. map_list brought made.new.ways.items ≡ map_list brought made.old.ways.items ++ all_brought decls.now node kinds.now insn.now is_ref next None) }
    ensures rows { IfOk result (λ done. NodeRows decls.now node kinds.now here.now insn.now is_ref pending.now (made_of made.old) (made_of made.new)) }
    ensures points { IfOk result (λ done. NodePoints decls.now insn.now pending.now kinds.now here.now (made_of made.old) (made_of made.new)) }
    ensures kept { IfOk result (λ done. (more : List Way) × (made.new.ways.items ≡ made.old.ways.items ++ more)) }
{
    let Some(to) = next else {
        return Ok(());
    };
    let mut held = here.held;
    operate_at(
        made, &mut held, decls, node, kinds, here.guard, insn, pending,
    )?;
    step_on(
        decls,
        node,
        kinds,
        insn,
        is_ref,
        here.guard,
        &held,
        to,
        &mut made.ways,
    )
}

/// The code of a node: what its instruction adds behind its guard, with what is known there and held; `is_ref` tells whether its place is a
/// reference to a map, `next` and `jump` to which nodes its edges lead, where they are present, and `pending` for each map the cell of its
/// writes before the node.
pub fn step_node(
    made: &mut Made,
    decls: &[MapDecl],
    node: u32,
    kinds: &Kinds,
    here: &Here,
    insn: &Insn,
    is_ref: bool,
    next: Option<u32>,
    jump: Option<u32>,
    pending: &[u32],
) -> Result<(), AllocError>
    requires insn { IsInsn insn.now }
    requires formed { AreFormed (seen made.old.cells.items) }
    requires guard { here.now.guard < length (seen made.old.cells.items) }
    requires inside { AreInside decls.now (length (seen made.old.cells.items)) (pointed made.old.pointers.items) here.now.held kinds.now }
    requires allowed { verdict (effect_of decls.now kinds.now insn.now) ≡ passed }
    requires keys { (q : ℕ) → kind.key_bytes decls.now q ≤ 64 }
    requires values { (q : ℕ) → kind.value_bytes decls.now q ≤ 64 }
    requires pending { All (λ c. c < length (seen made.old.cells.items)) pending.now }
    requires ends { AreEnds kinds.now insn.now insn.now.op next jump }
    ensures steps { IfOk result (λ done. NodeSteps decls.now node kinds.now here.now insn.now is_ref next jump (made_of made.old) (made_of made.new)) }
    ensures brought { IfOk result (λ done. map_list brought made.new.ways.items ≡ map_list brought made.old.ways.items ++ all_brought decls.now node kinds.now insn.now is_ref next jump) }
    ensures rows { IfOk result (λ done. NodeRows decls.now node kinds.now here.now insn.now is_ref pending.now (made_of made.old) (made_of made.new)) }
    ensures points { IfOk result (λ done. NodePoints decls.now insn.now pending.now kinds.now here.now (made_of made.old) (made_of made.new)) }
    ensures kept { IfOk result (λ done. (more : List Way) × (made.new.ways.items ≡ made.old.ways.items ++ more)) }
{
    match insn.op {
        Op::Jump(width, code, src) => step_jump(
            &mut made.cells,
            &made.pointers,
            decls,
            node,
            kinds,
            here,
            insn,
            width,
            code,
            src,
            next,
            jump,
            &mut made.ways,
        ),
        Op::Ja(width) => step_away(made, decls, node, kinds, here, insn, width, is_ref, jump),
        Op::Exit => step_exit(kinds, here, &mut made.exits),
        _ => step_along(made, decls, node, kinds, here, insn, is_ref, next, pending),
    }
}
