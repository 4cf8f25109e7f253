//! The wires of a design.

ghost use Rattle.std.specs.Prelude.{◌≡◌, ◌++◌, [], length, map, Some, None, OnOk, IfOk};
ghost use Rattle.net_core.specs.View.{right_of, wire_of};
ghost use Rattle.clock_sim.specs.Flat.{Extends, AreOperands};
ghost use Rattle.clock_sim.specs.Edges.{AreTyped, AreDivided, IsDivided, AddsWires, AreKnown, AreDivisors, first_zero, divisor_in, divisors_at, divisors_from};

use crate::builder::StepBuilder;
use crate::emit::right_value_of;
use crate::operands::{Operands, operand_of};
use net_core::design::Wire;
use net_core::tree::{Net, Right};
use std::alloc::{AllocError, Global};

/// A wire whose right side divides, and the slot of its divisor.
#[derive(Clone, Copy, PartialEq, Eq, Debug)]
pub struct Divisor {
    pub wire: u32,
    pub slot: u32,
}

// What a right side divides by.
fn divisor_of(right: &Right<Net>) -> Option<Net>
    ensures { result ≡ divisor_in (right_of right.now) }
{
    match right {
        Right::Plain(_) => None,
        Right::Quotient(_, b) => Some(*b),
        Right::Remainder(_, b) => Some(*b),
    }
}

/// Adds the steps of the wires in text order, and their operands.
pub fn add_wires(
    all: &[Wire],
    operands: &mut Operands,
    builder: &mut StepBuilder,
) -> Result<(), AllocError>
    requires none { operands.old.wires.items ≡ [] }
    requires typed { AreTyped operands.old (map wire_of all.now) }
    requires operands { AreOperands operands.old (length builder.old.slots) }
    ensures extends { OnOk result (Extends builder.old builder.new) }
    ensures operands { OnOk result (AreOperands operands.new (length builder.new.slots)) }
    ensures adds { OnOk result (AddsWires operands.old operands.new (map wire_of all.now)) }
    ensures divided { OnOk result (AreDivided operands.new (map wire_of all.now)) }
    ensures known { OnOk result (AreKnown builder.old builder.new operands.old operands.new (map wire_of all.now)) }
{
    for wire in all {
        let operand = right_value_of(&wire.right, operands, builder)?;
        operands.wires.push(operand)?;
    }
    Ok(())
}

// Adds the divisor of a wire, if its right side divides.
fn add_divisor(
    right: &Right<Net>,
    wire: u32,
    operands: &Operands,
    divisors: &mut Vec<Divisor>,
) -> Result<(), AllocError>
    requires { IsDivided operands.now (divisor_in (right_of right.now)) }
    ensures { OnOk result (divisors.new.items ≡ divisors.old.items ++ divisors_at operands.now wire (divisor_in (right_of right.now))) }
{
    match divisor_of(right) {
        None => Ok(()),
        Some(net) => {
            let slot = operand_of(operands, net).slot;
            divisors.push(Divisor { wire, slot })?;
            Ok(())
        }
    }
}

/// The divisors of the wires, in text order.
pub fn divisors_of(
    alloc: Global,
    all: &[Wire],
    operands: &Operands,
) -> Result<Vec<Divisor>, AllocError>
    requires { AreDivided operands.now (map wire_of all.now) }
    ensures { IfOk result (λ ds. ds.items ≡ divisors_from operands.now 0 (map wire_of all.now)) }
{
    let mut divisors = Vec::new(alloc);
    for (i, wire) in all.iter().enumerate() {
        let Ok(number) = u32::try_from(i) else {
            return Err(AllocError);
        };
        add_divisor(&wire.right, number, operands, &mut divisors)?;
    }
    Ok(divisors)
}

/// The first wire whose divisor is zero.
pub fn stopped(divisors: &[Divisor], slots: &[u64]) -> Option<u32>
    requires { AreDivisors divisors.now (length slots.now) }
    ensures { result ≡ first_zero divisors.now slots.now }
{
    for d in divisors {
        if slots[d.slot as usize] == 0 {
            return Some(d.wire);
        }
    }
    None
}
