//! One clock over the parts of a simulator.

ghost use Rattle.std.specs.Prelude.{◌≡◌, ◌+◌, ◌≤◌, length, Ok, Some, None, OnOk, IfOk, OnErr, IfErr};
ghost use Rattle.net_core.specs.Clock.{clock, stopping};
ghost use Rattle.net_core.specs.Ports.{AreInputs, words_of, outputs_of};
ghost use Rattle.net_core.specs.View.{netlist_of};
ghost use Rattle.clock_sim.specs.Layouts.{stored_of, with_words, IsReady};
ghost use Rattle.clock_sim.specs.Running.{stopped_net};

use crate::XValue;
use crate::edge::{Store, finish, gather};
use crate::memory::MemoryWords;
use crate::outputs::show;
use crate::step::{Group, Step, run};
use crate::wires::{Divisor, stopped};
use net_core::design::Design;
use net_core::ports::{Inputs, Outputs, PORT_COUNT, numbers_at};
use net_core::tree::Net;

/// A design, and what a clock of it does.
#[derive(Drop)]
pub struct CompiledDesign {
    pub design: Design,
    pub steps: Vec<Step>,
    pub groups: Vec<Group>,
    pub divisors: Vec<Divisor>,
    pub shown: Vec<u32>,
    pub next: Vec<u32>,
    pub stores: Vec<Store>,
}

/// Writes numbers into slots, from one on.
pub fn write_at(at: usize, words: &[u64], slots: &mut [u64])
    requires { at + length words.now ≤ length slots.old }
    ensures { slots.new ≡ with_words at words.now slots.old }
{
    for (i, word) in words.iter().enumerate() {
        slots[at + i] = *word;
    }
}

/// One clock. The slots and the next words of the registers are written over.
pub fn clock(
    compiled: &CompiledDesign,
    inputs: Inputs,
    slots: &mut [u64],
    contents: &mut [MemoryWords],
    next: &mut [u64],
) -> Result<Outputs, XValue>
    requires inputs { AreInputs inputs }
    requires ready { IsReady compiled.now slots.old contents.old (length next.old) }
    ensures runs { OnOk result (stopping (netlist_of compiled.now.design) (words_of inputs) (stored_of compiled.now slots.old contents.old) ≡ None) }
    ensures stored { OnOk result (clock (netlist_of compiled.now.design) (words_of inputs) (stored_of compiled.now slots.old contents.old) ≡ Ok (stored_of compiled.now slots.new contents.new)) }
    ensures outputs { IfOk result (λ o. o ≡ outputs_of (netlist_of compiled.now.design) inputs (stored_of compiled.now slots.old contents.old)) }
    ensures stops { IfErr result (λ x. stopped_net (netlist_of compiled.now.design) (words_of inputs) (stored_of compiled.now slots.old contents.old) ≡ Some x.net) }
    ensures unchanged { OnErr result (stored_of compiled.now slots.new contents.new ≡ stored_of compiled.now slots.old contents.old) }
    ensures ready { IsReady compiled.now slots.new contents.new (length next.new) }
{
    let ports = numbers_at(inputs);
    write_at(0, &ports, slots);
    run(&compiled.groups, &compiled.steps, contents, slots);
    if let Some(wire) = stopped(&compiled.divisors, slots) {
        let net = Net::Wire(wire);
        return Err(XValue { net });
    }
    let outputs = show(&compiled.shown, slots);
    gather(&compiled.next, slots, next);
    finish(&compiled.stores, slots, contents);
    write_at(PORT_COUNT, next, slots);
    Ok(outputs)
}
