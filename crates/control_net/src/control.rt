//! The block of control.

ghost use Rattle.std.specs.Prelude.{◌≡◌, ◌<◌, ◌≤◌, ◌^◌, ◌++◌, [], ◌∷◌, IfOk, OnOk, map};
ghost use Rattle.net_core.specs.declared.tree.Op.TheVariants.{Or, Equal, NotEqual};
ghost use Rattle.net_core.specs.Nets.{TRead, TBinary};
ghost use Rattle.net_core.specs.Value.{word};
ghost use Rattle.net_core.specs.View.{tree_of};
ghost use Rattle.block_core.specs.View.{block_of, block_wire_of};
ghost use Rattle.control_net.specs.declared.ring_net.names.Counter.TheVariants.{Given, Injected, Gathered};
ghost use Rattle.control_net.specs.RingNet.Names as ring_names;
ghost use Rattle.control_net.specs.RingNet.Trees as ring;
ghost use Rattle.control_net.specs.declared.names.Wire.TheVariants.{Advances};
ghost use Rattle.control_net.specs.Trees as trees;
ghost use Rattle.control_net.specs.Block.{IsControl};

use crate::names::{ControlNets, Wire, back_name, wire_name};
use crate::returns::bit_wire;
use crate::ring_net::control::compared;
use crate::ring_net::names::{Counter, Register, register_name};
use crate::ring_net::shape::ControlShape;
use crate::statements::statement;
use block_core::block::{Block, BlockWire};
use block_core::name::Name;
use net_core::build::{binary, unary};
use net_core::ports::{IN_LAST, IN_VALID, OUT_READY};
use net_core::tree::{Expr, Op, UnaryOp, Word};
use std::alloc::{AllocError, Global};

/// The block of control: counters of frames, which places hold packets and their numbers, and when beats go over. It reads which places send back of the part
/// that says so, `of`.
pub fn control<P: Copy>(
    alloc: Global,
    part: P,
    shape: &ControlShape,
    of: P,
    nets: &ControlNets<P>,
) -> Result<Block<Name<P>>, AllocError>
    ensures { IfOk result (λ b. IsControl shape.now part of nets.now (block_of b)) }
{
    let block = assembled(alloc, part, shape, of, nets)?;
    Ok(block)
}

fn assembled<P: Copy>(
    alloc: Global,
    part: P,
    shape: &ControlShape,
    of: P,
    nets: &ControlNets<P>,
) -> Result<Block<Name<P>>, AllocError>
    ensures { IfOk result (λ b. block_of b ≡ trees.control_tree shape.now part of nets.now) }
{
    let registers = zeros(alloc, shape)?;
    let wires = wires(alloc, part, shape, of, nets)?;
    let statement = statement(alloc, part, shape, of)?;
    Ok(Block {
        registers,
        memories: Vec::new(alloc),
        wires,
        statement,
    })
}

// The registers' first values.
fn zeros(alloc: Global, shape: &ControlShape) -> Result<Vec<Word>, AllocError>
    ensures { IfOk result (λ r. r.items ≡ trees.zeros shape.now) }
{
    let lap = zero(1);
    let slot = zero(shape.slot_bits);
    let passed = zero(32);
    let mut registers = vec![in alloc; lap, slot, lap, slot, lap, slot, lap, slot, passed]?;
    let mut places = vec![in alloc; zero(1); shape.stages as usize + 1]?;
    let mut laps = vec![in alloc; lap; shape.commit as usize + 1]?;
    let mut slots = vec![in alloc; slot; shape.commit as usize + 1]?;
    laps.append(&mut slots)?;
    places.append(&mut laps)?;
    registers.append(&mut places)?;
    Ok(registers)
}

fn zero(width: u8) -> Word
    ensures { result ≡ word width 0 }
{
    Word { width, value: 0 }
}

fn wires<P: Copy>(
    alloc: Global,
    part: P,
    shape: &ControlShape,
    of: P,
    nets: &ControlNets<P>,
) -> Result<Vec<BlockWire<Name<P>>>, AllocError>
    ensures { IfOk result (λ r. map block_wire_of r.items ≡ trees.control_wires shape.now part of nets.now) }
{
    let mut all = Vec::new(alloc);
    let ready = ready(alloc, part, nets)?;
    add_wire(&mut all, ready)?;
    let over = both(alloc, read_port(IN_VALID), read_wire(part, Wire::Ready))?;
    add_wire(&mut all, over)?;
    let ends = both(alloc, read_wire(part, Wire::Over), read_port(IN_LAST))?;
    add_wire(&mut all, ends)?;
    let advances = unary(alloc, UnaryOp::Not, Expr::Read(nets.stalls))?;
    add_wire(&mut all, advances)?;
    let injects = injects(alloc, part, shape, of)?;
    add_wire(&mut all, injects)?;
    let exits = leaves(alloc, part, shape, of, shape.stages)?;
    add_wire(&mut all, exits)?;
    let passes = leaves(alloc, part, shape, of, shape.commit)?;
    add_wire(&mut all, passes)?;
    let shown = compared(alloc, part, Op::NotEqual, Counter::Answered, Counter::Given)?;
    add_wire(&mut all, shown)?;
    let taken = both(alloc, read_wire(part, Wire::Shown), read_port(OUT_READY))?;
    add_wire(&mut all, taken)?;
    let gone = both(alloc, read_wire(part, Wire::Taken), Expr::Read(nets.last))?;
    add_wire(&mut all, gone)?;
    Ok(all)
}

// Adds a wire of one bit.
fn add_wire<P: Copy>(all: &mut Vec<BlockWire<Name<P>>>, e: Expr<Name<P>>) -> Result<(), AllocError>
    ensures { OnOk result (map block_wire_of all.new.items ≡ map block_wire_of all.old.items ++ ring.bit_wire (tree_of e) ∷ []) }
{
    all.push(bit_wire(e))?;
    Ok(())
}

fn ready<P: Copy>(
    alloc: Global,
    part: P,
    nets: &ControlNets<P>,
) -> Result<Expr<Name<P>>, AllocError>
    ensures { IfOk result (λ e. tree_of e ≡ TBinary Or (TRead nets.now.partial) (ring.compared part Equal Gathered Given)) }
{
    let room = compared(alloc, part, Op::Equal, Counter::Gathered, Counter::Given)?;
    binary(alloc, Op::Or, Expr::Read(nets.partial), room)
}

// A frame waits, and packets move on, and none is sent back.
fn injects<P: Copy>(
    alloc: Global,
    part: P,
    shape: &ControlShape,
    of: P,
) -> Result<Expr<Name<P>>, AllocError>
    ensures { IfOk result (λ e. tree_of e ≡ ring.both (trees.enters shape.now part of) (ring.compared part NotEqual Gathered Injected)) }
{
    let none = unary(alloc, UnaryOp::Not, Expr::Read(back_name(of, shape, 0)))?;
    let enters = both(alloc, read_wire(part, Wire::Advances), none)?;
    let waits = compared(
        alloc,
        part,
        Op::NotEqual,
        Counter::Gathered,
        Counter::Injected,
    )?;
    both(alloc, enters, waits)
}

// The packet at a place moves on.
fn leaves<P: Copy>(
    alloc: Global,
    part: P,
    shape: &ControlShape,
    of: P,
    k: u32,
) -> Result<Expr<Name<P>>, AllocError>
    requires { k ≤ shape.now.stages }
    ensures { IfOk result (λ e. tree_of e ≡ ring.both (trees.wire part Advances) (trees.kept shape.now part of k)) }
{
    let stays = kept(alloc, part, shape, of, k)?;
    both(alloc, read_wire(part, Wire::Advances), stays)
}

/// Whether a place holds a packet that is not sent back.
pub(crate) fn kept<P: Copy>(
    alloc: Global,
    part: P,
    shape: &ControlShape,
    of: P,
    k: u32,
) -> Result<Expr<Name<P>>, AllocError>
    requires { k ≤ shape.now.stages }
    ensures { IfOk result (λ e. tree_of e ≡ trees.kept shape.now part of k) }
{
    let holds = read_register(part, Register::Holds(k));
    if k <= shape.commit {
        let stays = unary(alloc, UnaryOp::Not, Expr::Read(back_name(of, shape, k)))?;
        both(alloc, holds, stays)
    } else {
        Ok(holds)
    }
}

fn both<P: Copy>(
    alloc: Global,
    a: Expr<Name<P>>,
    b: Expr<Name<P>>,
) -> Result<Expr<Name<P>>, AllocError>
    ensures { IfOk result (λ e. tree_of e ≡ ring.both (tree_of a) (tree_of b)) }
{
    binary(alloc, Op::And, a, b)
}

/// A register's value.
pub(crate) fn read_register<P: Copy>(part: P, register: Register) -> Expr<Name<P>>
    requires { ring_names.register_number register < 2 ^ 32 }
    ensures { tree_of result ≡ ring.register part register }
{
    Expr::Read(register_name(part, register))
}

/// A wire's value.
pub(crate) fn read_wire<P: Copy>(part: P, wire: Wire) -> Expr<Name<P>>
    ensures { tree_of result ≡ trees.wire part wire }
{
    Expr::Read(wire_name(part, wire))
}

fn read_port<P: Copy>(port: u32) -> Expr<Name<P>>
    ensures { tree_of result ≡ ring.port port }
{
    Expr::Read(Name::Port(port))
}
