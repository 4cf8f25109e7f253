//! What each clock sets.

ghost use Rattle.std.specs.Prelude.{◌≡◌, ◌≤◌, ◌++◌, [], ◌∷◌, suc, IfOk, OnOk, map};
ghost use Rattle.std.specs.List.{range_with_len};
ghost use Rattle.net_core.specs.Nets.{TRead, SIf};
ghost use Rattle.net_core.specs.View.{tree_of, statement_of};
ghost use Rattle.control_net.specs.declared.ring_net.names.Counter.TheVariants.{Injected};
ghost use Rattle.control_net.specs.declared.ring_net.names.Register.TheVariants.{Lap, Slot};
ghost use Rattle.control_net.specs.RingNet.Trees as ring;
ghost use Rattle.control_net.specs.declared.names.Wire.TheVariants.{Advances, Injects};
ghost use Rattle.control_net.specs.Names as names;
ghost use Rattle.net_core.specs.Chains as chains;
ghost use Rattle.control_net.specs.Trees as trees;

use crate::control::{kept, read_register, read_wire};
use crate::names::{Wire, back_name, lap_name, lap_number, slot_name, slot_number};
use crate::ring_net::control::counting;
use crate::ring_net::names::{Counter, Register, register_number};
use crate::ring_net::shape::ControlShape;
use block_core::name::Name;
use net_core::build::{self, binary, conditional, constant, then, when};
use net_core::tree::{Expr, Op, Stmt, Stmts};
use std::alloc::{AllocError, Global};

/// The statement of control.
pub(crate) fn statement<P: Copy>(
    alloc: Global,
    part: P,
    shape: &ControlShape,
    of: P,
) -> Result<Stmt<Name<P>>, AllocError>
    ensures { IfOk result (λ s. statement_of s ≡ chains.all_of (trees.control_statements shape.now part of)) }
{
    let all = listed(alloc, part, shape, of)?;
    all_of(alloc, all)
}

fn listed<P: Copy>(
    alloc: Global,
    part: P,
    shape: &ControlShape,
    of: P,
) -> Result<Vec<Stmt<Name<P>>>, AllocError>
    ensures { IfOk result (λ r. map statement_of r.items ≡ trees.control_statements shape.now part of) }
{
    let mut all = Vec::new(alloc);
    let given = advance(alloc, part, shape, Wire::Gone, Counter::Given)?;
    add(&mut all, given)?;
    let answered = advance(alloc, part, shape, Wire::Exits, Counter::Answered)?;
    add(&mut all, answered)?;
    let injected = advance(alloc, part, shape, Wire::Injects, Counter::Injected)?;
    add(&mut all, injected)?;
    let gathered = advance(alloc, part, shape, Wire::Ends, Counter::Gathered)?;
    add(&mut all, gathered)?;
    let passed = pass(alloc, part)?;
    add(&mut all, passed)?;
    let resumed = resumed(alloc, part, shape, of)?;
    add(&mut all, resumed)?;
    let moved = moved(alloc, part, shape, of)?;
    add(&mut all, moved)?;
    let laps = laps_moved(alloc, part, shape)?;
    add(&mut all, laps)?;
    let slots = slots_moved(alloc, part, shape)?;
    add(&mut all, slots)?;
    Ok(all)
}

fn add<P: Copy>(all: &mut Vec<Stmt<Name<P>>>, statement: Stmt<Name<P>>) -> Result<(), AllocError>
    ensures { OnOk result (map statement_of all.new.items ≡ map statement_of all.old.items ++ statement_of statement ∷ []) }
{
    all.push(statement)?;
    Ok(())
}

fn all_of<P: Copy>(alloc: Global, all: Vec<Stmt<Name<P>>>) -> Result<Stmt<Name<P>>, AllocError>
    ensures { IfOk result (λ s. statement_of s ≡ chains.all_of (map statement_of all.items)) }
{
    let listed = build::statements(alloc, all)?;
    build::block(alloc, listed)
}

// One frame on, where a wire is 1.
fn advance<P: Copy>(
    alloc: Global,
    part: P,
    shape: &ControlShape,
    when_one: Wire,
    counter: Counter,
) -> Result<Stmt<Name<P>>, AllocError>
    ensures { IfOk result (λ s. statement_of s ≡ trees.advance shape.now part when_one counter) }
{
    let counted = counting(alloc, part, shape, counter)?;
    when(alloc, read_wire(part, when_one), counted)
}

// One packet more has passed.
fn pass<P: Copy>(alloc: Global, part: P) -> Result<Stmt<Name<P>>, AllocError>
    ensures { IfOk result (λ s. statement_of s ≡ trees.pass part) }
{
    let passed = read_register(part, Register::Passed);
    let more = binary(alloc, Op::Add, passed, constant(32, 1))?;
    let set = Stmt::Set(register_number(Register::Passed), more);
    when(alloc, read_wire(part, Wire::Passes), set)
}

// The next frame that is injected is that of the oldest packet that is sent back.
fn resumed<P: Copy>(
    alloc: Global,
    part: P,
    shape: &ControlShape,
    of: P,
) -> Result<Stmt<Name<P>>, AllocError>
    ensures { IfOk result (λ s. statement_of s ≡ trees.by_place (trees.resume shape.now part of) (suc shape.now.commit)) }
{
    let all = resumes(alloc, part, shape, of)?;
    all_of(alloc, all)
}

fn resumes<P: Copy>(
    alloc: Global,
    part: P,
    shape: &ControlShape,
    of: P,
) -> Result<Vec<Stmt<Name<P>>>, AllocError>
    ensures { IfOk result (λ r. map statement_of r.items ≡ map (trees.resume shape.now part of) (range_with_len 0 (suc shape.now.commit))) }
{
    let mut all = Vec::new(alloc);
    for k in 0..shape.commit + 1 {
        all.push(resume(alloc, part, shape, of, k)?)?;
    }
    Ok(all)
}

fn resume<P: Copy>(
    alloc: Global,
    part: P,
    shape: &ControlShape,
    of: P,
    k: u32,
) -> Result<Stmt<Name<P>>, AllocError>
    requires { k ≤ shape.now.commit }
    ensures { IfOk result (λ s. statement_of s ≡ trees.resume shape.now part of k) }
{
    let lap = Expr::Read(lap_name(part, shape, k));
    let slot = Expr::Read(slot_name(part, shape, k));
    let set_slot = Stmt::Set(register_number(Register::Slot(Counter::Injected)), slot);
    let rest = then(alloc, set_slot, Stmts::End)?;
    let set_lap = Stmt::Set(register_number(Register::Lap(Counter::Injected)), lap);
    let sets = build::block(alloc, then(alloc, set_lap, rest)?)?;
    when(alloc, Expr::Read(back_name(of, shape, k)), sets)
}

// Each place takes what the one before keeps, or it keeps its own.
fn moved<P: Copy>(
    alloc: Global,
    part: P,
    shape: &ControlShape,
    of: P,
) -> Result<Stmt<Name<P>>, AllocError>
    ensures { IfOk result (λ s. statement_of s ≡ trees.by_place (trees.move shape.now part of) (suc shape.now.stages)) }
{
    let all = moves(alloc, part, shape, of)?;
    all_of(alloc, all)
}

fn moves<P: Copy>(
    alloc: Global,
    part: P,
    shape: &ControlShape,
    of: P,
) -> Result<Vec<Stmt<Name<P>>>, AllocError>
    ensures { IfOk result (λ r. map statement_of r.items ≡ map (trees.move shape.now part of) (range_with_len 0 (suc shape.now.stages))) }
{
    let mut all = Vec::new(alloc);
    for k in 0..shape.stages + 1 {
        all.push(move_on(alloc, part, shape, of, k)?)?;
    }
    Ok(all)
}

fn move_on<P: Copy>(
    alloc: Global,
    part: P,
    shape: &ControlShape,
    of: P,
    k: u32,
) -> Result<Stmt<Name<P>>, AllocError>
    requires { k ≤ shape.now.stages }
    ensures { IfOk result (λ s. statement_of s ≡ trees.move shape.now part of k) }
{
    let entering = entering(alloc, part, shape, of, k)?;
    let stays = kept(alloc, part, shape, of, k)?;
    let next = conditional(alloc, read_wire(part, Wire::Advances), entering, stays)?;
    Ok(Stmt::Set(register_number(Register::Holds(k)), next))
}

// What comes to a place where packets move on.
fn entering<P: Copy>(
    alloc: Global,
    part: P,
    shape: &ControlShape,
    of: P,
    k: u32,
) -> Result<Expr<Name<P>>, AllocError>
    requires { k ≤ shape.now.stages }
    ensures { IfOk result (λ e. tree_of e ≡ trees.before (trees.wire part Injects) (trees.kept shape.now part of) k) }
{
    if k == 0 {
        Ok(read_wire(part, Wire::Injects))
    } else {
        kept(alloc, part, shape, of, k - 1)
    }
}

// The laps of packets move on with them.
fn laps_moved<P: Copy>(
    alloc: Global,
    part: P,
    shape: &ControlShape,
) -> Result<Stmt<Name<P>>, AllocError>
    ensures { IfOk result (λ s. statement_of s ≡ SIf (trees.wire part Advances) (trees.by_place (trees.move_lap shape.now part) (suc shape.now.commit))) }
{
    let moves = lap_moves(alloc, part, shape)?;
    let laps = all_of(alloc, moves)?;
    when(alloc, read_wire(part, Wire::Advances), laps)
}

fn lap_moves<P: Copy>(
    alloc: Global,
    part: P,
    shape: &ControlShape,
) -> Result<Vec<Stmt<Name<P>>>, AllocError>
    ensures { IfOk result (λ r. map statement_of r.items ≡ map (trees.move_lap shape.now part) (range_with_len 0 (suc shape.now.commit))) }
{
    let mut all = Vec::new(alloc);
    for k in 0..shape.commit + 1 {
        let number = lap_number(shape, k);
        all.push(Stmt::Set(number, lap_before(part, shape, k)))?;
    }
    Ok(all)
}

fn lap_before<P: Copy>(part: P, shape: &ControlShape, k: u32) -> Expr<Name<P>>
    requires { k ≤ shape.now.commit }
    ensures { tree_of result ≡ trees.before (ring.register part (Lap Injected)) (λ j. TRead (names.lap_name shape.now part j)) k }
{
    if k == 0 {
        read_register(part, Register::Lap(Counter::Injected))
    } else {
        Expr::Read(lap_name(part, shape, k - 1))
    }
}

// The slots of packets move on with them.
fn slots_moved<P: Copy>(
    alloc: Global,
    part: P,
    shape: &ControlShape,
) -> Result<Stmt<Name<P>>, AllocError>
    ensures { IfOk result (λ s. statement_of s ≡ SIf (trees.wire part Advances) (trees.by_place (trees.move_slot shape.now part) (suc shape.now.commit))) }
{
    let moves = slot_moves(alloc, part, shape)?;
    let slots = all_of(alloc, moves)?;
    when(alloc, read_wire(part, Wire::Advances), slots)
}

fn slot_moves<P: Copy>(
    alloc: Global,
    part: P,
    shape: &ControlShape,
) -> Result<Vec<Stmt<Name<P>>>, AllocError>
    ensures { IfOk result (λ r. map statement_of r.items ≡ map (trees.move_slot shape.now part) (range_with_len 0 (suc shape.now.commit))) }
{
    let mut all = Vec::new(alloc);
    for k in 0..shape.commit + 1 {
        let number = slot_number(shape, k);
        all.push(Stmt::Set(number, slot_before(part, shape, k)))?;
    }
    Ok(all)
}

fn slot_before<P: Copy>(part: P, shape: &ControlShape, k: u32) -> Expr<Name<P>>
    requires { k ≤ shape.now.commit }
    ensures { tree_of result ≡ trees.before (ring.register part (Slot Injected)) (λ j. TRead (names.slot_name shape.now part j)) k }
{
    if k == 0 {
        read_register(part, Register::Slot(Counter::Injected))
    } else {
        Expr::Read(slot_name(part, shape, k - 1))
    }
}
