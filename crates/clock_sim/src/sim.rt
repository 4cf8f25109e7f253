//! The simulator.

ghost use Rattle.std.specs.Prelude.{◌≡◌, Ok, Some, None, OnOk, IfOk, OnErr, IfErr};
ghost use Rattle.net_core.specs.Clock.{clock, stopping, first_stored};
ghost use Rattle.net_core.specs.Names.{name_of};
ghost use Rattle.net_core.specs.Ports.{AreInputs, words_of, outputs_of};
ghost use Rattle.net_core.specs.View.{netlist_of};
ghost use Rattle.net_core.specs.Width.{IsTyped};
ghost use Rattle.clock_sim.specs.Running.{stopped_net, IsNamed};

use crate::clock::CompiledDesign;
use crate::compile::compile;
use crate::memory::MemoryWords;
use crate::names::place_in;
use net_core::design::Design;
use net_core::ports::{Inputs, Outputs};
use net_core::tree::Net;
use std::alloc::{AllocError, Global};
use std::marker::Model;
use thiserror::Error;

/// A clock that stopped: the divisor of this wire is zero, so its value is unknown.
#[derive(Clone, Copy, PartialEq, Eq, Debug, Error)]
#[error("the divisor of a wire is zero")]
pub struct XValue {
    pub net: Net,
}

/// A design and what it stores between two clocks.
#[derive(Drop)]
pub struct Sim {
    compiled: CompiledDesign,
    slots: Vec<u64>,
    contents: Vec<MemoryWords>,
    next: Vec<u64>,
}

impl Model for Sim {
    ghost use Rattle.clock_sim.specs.Running.{Running, coded_running};

    ghost Value = { Running };

    ghost coded = { coded_running };

    ghost use Rattle.std.specs.Prelude.{length};
    ghost use Rattle.net_core.specs.View.{netlist_of};
    ghost use Rattle.clock_sim.specs.Layouts.{stored_of, IsReady};

    ghost view = { λ s. record { netlist = netlist_of s.compiled.design; stored = stored_of s.compiled s.slots.items s.contents.items } };

    ghost invariant = { λ s. IsReady s.compiled s.slots.items s.contents.items (length s.next.items) };
}

impl Sim {
    /// A simulator whose registers and memories have their declared values. A design that needs 2 to the power 32
    /// slots, for its ports, registers, constants and operators, or more is refused as too large for memory.
    pub fn open(alloc: Global, design: Design) -> Result<Sim, AllocError>
        requires { IsTyped (netlist_of design) }
        ensures netlist { IfOk result (λ s. s.netlist ≡ netlist_of design) }
        ensures stored { IfOk result (λ s. s.stored ≡ first_stored (netlist_of design)) }
    {
        let start = compile(alloc, design)?;
        Ok(Sim {
            compiled: start.compiled,
            slots: start.slots,
            contents: start.contents,
            next: start.next,
        })
    }

    /// One clock: the outputs that the inputs show, and then the rising edge. Where a divisor is zero it gives the
    /// first such wire in text order, and changes nothing. It takes no memory.
    pub fn clock(&mut self, inputs: &Inputs) -> Result<Outputs, XValue>
        requires { AreInputs inputs.now }
        ensures netlist { self.new.netlist ≡ self.old.netlist }
        ensures runs { OnOk result (stopping self.old.netlist (words_of inputs.now) self.old.stored ≡ None) }
        ensures stored { OnOk result (clock self.old.netlist (words_of inputs.now) self.old.stored ≡ Ok self.new.stored) }
        ensures outputs { IfOk result (λ o. o ≡ outputs_of self.old.netlist inputs.now self.old.stored) }
        ensures stops { IfErr result (λ x. stopped_net self.old.netlist (words_of inputs.now) self.old.stored ≡ Some x.net) }
        ensures unchanged { OnErr result (self.new ≡ self.old) }
    {
        crate::clock::clock(
            &self.compiled,
            *inputs,
            &mut self.slots,
            &mut self.contents,
            &mut self.next,
        )
    }

    /// The name of a net of the design.
    pub fn name(&self, net: Net) -> &str
        requires { IsNamed self.now.netlist net }
        ensures { result.now ≡ name_of self.now.netlist net }
    {
        self.compiled.design.names[place_in(&self.compiled.design, net)].as_str()
    }
}
