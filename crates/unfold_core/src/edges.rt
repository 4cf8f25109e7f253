// What leaves a node: its present edges, or the first test that it fails.

ghost use Rattle.std.specs.Prelude.{◌≡◌, ◌<◌, length, All, IfSome, is_some, slice_index_or, None};
ghost use Rattle.std.specs.Bool.{OnTrue};
ghost use Rattle.std.specs.Option.{option_copied};
ghost use Rattle.xdp_machine.specs.bpf_isa.Spelling.{IsInsn};
ghost use Rattle.unfold_core.specs.Units.{ArePlaces};
ghost use Rattle.unfold_core.specs.Edges.{goes_next, goes_jump, edge_to, if_present, next_edge, jump_edge, edges_of, leaving, Adds, Makes, Leaves};
ghost use Rattle.kind_core.specs.Edges.{decided};
ghost use Rattle.xdp_state.specs.declared.refusal.BuildError.TheVariants.{Refused};

use crate::jumps::target;
use crate::nesting::Loop;
use crate::nodes::{Node, reached};
use kind_core::{Kinds, allowed, decide, transfer};
use std::alloc::Global;
use xdp_machine::bpf_isa::{Insn, Op};
use xdp_object::Program;
use xdp_state::{BuildError, Refusal, Why};

/// A node and what is known there, or the end of an edge and what is known on it.
#[derive(Debug, Drop)]
pub struct Point {
    pub node: Node,
    pub kinds: Kinds,
}

/// Whether an edge goes to the next place.
pub(crate) fn goes_next(op: Op, decided: Option<bool>) -> bool
    ensures { result ≡ goes_next op decided }
{
    match op {
        Op::Exit | Op::Ja(_) => false,
        Op::Jump(_, _, _) => match decided {
            Some(taken) => !taken,
            None => true,
        },
        _ => true,
    }
}

// Whether an edge goes to the target of a jump.
fn goes_jump(op: Op, decided: Option<bool>) -> bool
    ensures { result ≡ goes_jump op decided }
{
    match op {
        Op::Ja(_) => true,
        Op::Jump(_, _, _) => decided.unwrap_or(true),
        _ => false,
    }
}

/// A refusal at a place.
pub(crate) fn refused(at: u32, why: Why) -> BuildError
    ensures { result ≡ Refused (record { at = at; why = why }) }
{
    BuildError::Refused(Refusal { at, why })
}

// Whether an instruction begins at a place.
fn begins(units: &[Option<Insn>], place: u64) -> bool
    ensures begins { result ≡ is_some (slice_index_or units.now place None) }
    ensures inside { OnTrue result (place < length units.now) }
{
    if place < units.len() as u64 {
        units[place as usize].is_some()
    } else {
        false
    }
}

/// The instruction that begins at a place.
pub(crate) fn insn_at(units: &[Option<Insn>], place: usize) -> Option<&Insn>
    requires { All (λ unit. IfSome unit IsInsn) units.now }
    ensures found { option_copied result ≡ slice_index_or units.now place None }
    ensures legal { IfSome result (λ i. IsInsn i.now) }
{
    match units.get(place) {
        Some(unit) => unit.as_ref(),
        None => None,
    }
}

// An edge to a place.
fn edge_to(
    alloc: Global,
    program: &Program,
    units: &[Option<Insn>],
    loops: &[Loop],
    from: &Node,
    kinds: Kinds,
    to: Option<u64>,
) -> Result<Point, BuildError>
    requires units { ArePlaces program.now.insns units.now }
    ensures { Makes from.now.place result (edge_to program.now.insns loops.now from.now kinds to) }
{
    let Some(to) = to else {
        return Err(refused(from.place(), Why::Jump));
    };
    if !begins(units, to) {
        return Err(refused(from.place(), Why::Jump));
    }
    match reached(alloc, loops, from, to as u32) {
        Ok(Some(node)) => Ok(Point { node, kinds }),
        Ok(None) => Err(refused(from.place(), Why::Loop)),
        Err(_) => Err(BuildError::NoMemory),
    }
}

// Adds the edge to the next place, where it is present.
fn add_next(
    alloc: Global,
    program: &Program,
    units: &[Option<Insn>],
    loops: &[Loop],
    number: u32,
    at: &Point,
    insn: &Insn,
    edges: &mut Vec<Point>,
) -> Result<(), BuildError>
    requires units { ArePlaces program.now.insns units.now }
    requires insn { IsInsn insn.now }
    ensures { Adds at.now.node.place result (if_present (goes_next insn.now.op (decided at.now.kinds insn.now)) (next_edge program.now loops.now number at.now insn.now)) edges.old.items edges.new.items }
{
    if !goes_next(insn.op, decide(insn, &at.kinds)) {
        return Ok(());
    }
    let place = at.node.place();
    let is_reference = program.refs().contains(&place);
    let kinds = transfer(
        insn,
        &at.kinds,
        program.decls(),
        number,
        is_reference,
        false,
    );
    let to = u64::from(place) + u64::from(insn.op.units());
    let edge = edge_to(alloc, program, units, loops, &at.node, kinds, Some(to))?;
    match edges.push(edge) {
        Ok(()) => Ok(()),
        Err(_) => Err(BuildError::NoMemory),
    }
}

// Adds the edge of a jump, where it is present.
fn add_jump(
    alloc: Global,
    program: &Program,
    units: &[Option<Insn>],
    loops: &[Loop],
    number: u32,
    at: &Point,
    insn: &Insn,
    edges: &mut Vec<Point>,
) -> Result<(), BuildError>
    requires units { ArePlaces program.now.insns units.now }
    requires insn { IsInsn insn.now }
    ensures { Adds at.now.node.place result (if_present (goes_jump insn.now.op (decided at.now.kinds insn.now)) (jump_edge program.now loops.now number at.now insn.now)) edges.old.items edges.new.items }
{
    if !goes_jump(insn.op, decide(insn, &at.kinds)) {
        return Ok(());
    }
    let place = at.node.place();
    let is_reference = program.refs().contains(&place);
    let kinds = transfer(insn, &at.kinds, program.decls(), number, is_reference, true);
    let to = target(place, insn);
    let edge = edge_to(alloc, program, units, loops, &at.node, kinds, to)?;
    match edges.push(edge) {
        Ok(()) => Ok(()),
        Err(_) => Err(BuildError::NoMemory),
    }
}

// The present edges of an allowed instruction.
fn edges_of(
    alloc: Global,
    program: &Program,
    units: &[Option<Insn>],
    loops: &[Loop],
    number: u32,
    at: &Point,
    insn: &Insn,
) -> Result<Vec<Point>, BuildError>
    requires units { ArePlaces program.now.insns units.now }
    requires insn { IsInsn insn.now }
    ensures { Leaves at.now.node.place (edges_of program.now loops.now number at.now insn.now) result }
{
    let mut edges = Vec::new(alloc);
    add_next(alloc, program, units, loops, number, at, insn, &mut edges)?;
    add_jump(alloc, program, units, loops, number, at, insn, &mut edges)?;
    Ok(edges)
}

/// The present edges that leave the node of this number, in unfolded order, of a program with these units, the next place first. Without
/// want of memory a refusal comes exactly where the node is refused, and is the first test that it fails.
pub fn leave(
    alloc: Global,
    program: &Program,
    units: &[Option<Insn>],
    loops: &[Loop],
    number: u32,
    at: &Point,
) -> Result<Vec<Point>, BuildError>
    requires { ArePlaces program.now.insns units.now }
    ensures { Leaves at.now.node.place (leaving program.now loops.now number at.now) result }
{
    let place = at.node.place();
    match insn_at(units, place as usize) {
        Some(insn) => match allowed(insn, &at.kinds, program.decls()) {
            Ok(()) => edges_of(alloc, program, units, loops, number, at, insn),
            Err(why) => Err(refused(place, why)),
        },
        None => Err(refused(place, Why::Jump)),
    }
}
