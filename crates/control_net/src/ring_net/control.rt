//! What blocks compute of the counters of frames.

ghost use Rattle.std.specs.Prelude.{◌≡◌, ◌<◌, ◌^◌, IfOk};
ghost use Rattle.net_core.specs.View.{tree_of, statement_of};
ghost use Rattle.control_net.specs.RingNet.Names as names;
ghost use Rattle.control_net.specs.RingNet.Trees as trees;

use crate::ring_net::names::{Counter, Register, register_name, register_number};
use crate::ring_net::shape::ControlShape;
use block_core::name::Name;
use net_core::build::{self, binary, conditional, constant, then, unary};
use net_core::tree::{Expr, Op, Stmt, Stmts, UnaryOp};
use std::alloc::{AllocError, Global};

/// The slots of two counters differ, or their laps compare so.
pub fn compared<P: Copy>(
    alloc: Global,
    part: P,
    op: Op,
    a: Counter,
    b: Counter,
) -> Result<Expr<Name<P>>, AllocError>
    ensures { IfOk result (λ e. tree_of e ≡ trees.compared part op a b) }
{
    let slots = binary(
        alloc,
        Op::NotEqual,
        read_register(part, Register::Slot(a)),
        read_register(part, Register::Slot(b)),
    )?;
    let laps = binary(
        alloc,
        op,
        read_register(part, Register::Lap(a)),
        read_register(part, Register::Lap(b)),
    )?;
    binary(alloc, Op::Or, slots, laps)
}

/// One frame on.
pub fn counting<P: Copy>(
    alloc: Global,
    part: P,
    shape: &ControlShape,
    counter: Counter,
) -> Result<Stmt<Name<P>>, AllocError>
    ensures { IfOk result (λ s. statement_of s ≡ trees.counting shape.now part counter) }
{
    let lap = Register::Lap(counter);
    let slot = Register::Slot(counter);
    let turned = unary(alloc, UnaryOp::Not, read_register(part, lap))?;
    let next_lap = at_end(alloc, part, shape, slot, turned, read_register(part, lap))?;
    let one = constant(shape.slot_bits, 1);
    let more = binary(alloc, Op::Add, read_register(part, slot), one)?;
    let next_slot = at_end(alloc, part, shape, slot, constant(shape.slot_bits, 0), more)?;
    let rest = then(
        alloc,
        Stmt::Set(register_number(slot), next_slot),
        Stmts::End,
    )?;
    let sets = then(alloc, Stmt::Set(register_number(lap), next_lap), rest)?;
    build::block(alloc, sets)
}

// A value where a slot is the last one, and another elsewhere.
fn at_end<P: Copy>(
    alloc: Global,
    part: P,
    shape: &ControlShape,
    slot: Register,
    last: Expr<Name<P>>,
    other: Expr<Name<P>>,
) -> Result<Expr<Name<P>>, AllocError>
    requires { names.register_number slot < 2 ^ 32 }
    ensures { IfOk result (λ e. tree_of e ≡ trees.at_end shape.now part slot (tree_of last) (tree_of other)) }
{
    let end = constant(shape.slot_bits, u64::from(shape.slots - 1));
    let is_last = binary(alloc, Op::Equal, read_register(part, slot), end)?;
    conditional(alloc, is_last, last, other)
}

fn read_register<P: Copy>(part: P, register: Register) -> Expr<Name<P>>
    requires { names.register_number register < 2 ^ 32 }
    ensures { tree_of result ≡ trees.register part register }
{
    Expr::Read(register_name(part, register))
}
