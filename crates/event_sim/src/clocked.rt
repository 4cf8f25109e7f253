//! A design that is clocked by events.

ghost use Rattle.std.specs.Prelude.{◌≡◌, ◌+◌, Ok, Some, None, OnOk, IfOk, OnErr, IfErr, length};
ghost use Rattle.net_core.specs.Clock.{clock, stopping, first_stored};
ghost use Rattle.net_core.specs.Names.{name_of};
ghost use Rattle.net_core.specs.Ports.{AreInputs, words_of, outputs_of};
ghost use Rattle.net_core.specs.View.{netlist_of};
ghost use Rattle.design_rules.specs.Formed.{IsWellFormed};
ghost use Rattle.clock_sim.specs.Running.{stopped_net, IsNamed};
ghost use Rattle.event_sim.specs.Events.{net_count, block_count};

use crate::events::Events;
use crate::order::order_of;
use crate::refusal::EdgeError;
use clock_sim::{Clocked, XValue};
use net_core::design::Design;
use net_core::ports::{Inputs, Outputs};
use net_core::tree::Net;
use std::alloc::{AllocError, Global};
use std::marker::Model;

/// A simulator whose clocks are events in an order of its own: nets settle in one order, and the always blocks run in another.
#[derive(Drop)]
pub struct EventSim {
    events: Events,
    order: Vec<u32>,
    blocks: Vec<u32>,
}

impl Model for EventSim {
    ghost use Rattle.clock_sim.specs.Running.{Running, coded_running};

    ghost Value = { Running };

    ghost coded = { coded_running };

    ghost use Rattle.event_sim.specs.Events.{net_count, block_count};
    ghost use Rattle.event_sim.specs.Orders.{IsOrder};

    ghost view = { λ s. record { netlist = s.events.netlist; stored = s.events.stored } };

    ghost invariant = { λ s. IsOrder (net_count s.events.netlist) s.order.items × IsOrder (block_count s.events.netlist) s.blocks.items };
}

impl EventSim {
    /// A simulator whose registers and memories have their declared values. Of these draws, the first are for the nets, and
    /// the others for the always blocks: each stands in its order by its draw, and where draws are equal by its number.
    pub fn open(alloc: Global, design: Design, draws: &[u32]) -> Result<EventSim, AllocError>
        requires formed { IsWellFormed (netlist_of design) }
        requires count { length draws.now ≡ net_count (netlist_of design) + block_count (netlist_of design) }
        ensures netlist { IfOk result (λ s. s.netlist ≡ netlist_of design) }
        ensures stored { IfOk result (λ s. s.stored ≡ first_stored (netlist_of design)) }
    {
        let events = Events::open(alloc, design)?;
        let (nets, blocks) = draws.split_at(events.net_count());
        let order = order_of(alloc, nets)?;
        let blocks = order_of(alloc, blocks)?;
        Ok(EventSim {
            events,
            order,
            blocks,
        })
    }

    /// One clock: nets settle at these inputs, the outputs are what they then show, and the rising edge follows. Where a
    /// divisor is zero it gives the first such wire in text order, and changes nothing that is stored. It takes no memory.
    pub fn clock(&mut self, inputs: &Inputs) -> Result<Outputs, XValue>
        requires { AreInputs inputs.now }
        ensures netlist { self.new.netlist ≡ self.old.netlist }
        ensures runs { OnOk result (stopping self.old.netlist (words_of inputs.now) self.old.stored ≡ None) }
        ensures stored { OnOk result (clock self.old.netlist (words_of inputs.now) self.old.stored ≡ Ok self.new.stored) }
        ensures outputs { IfOk result (λ o. o ≡ outputs_of self.old.netlist inputs.now self.old.stored) }
        ensures stops { IfErr result (λ x. stopped_net self.old.netlist (words_of inputs.now) self.old.stored ≡ Some x.net) }
        ensures unchanged { OnErr result (self.new ≡ self.old) }
    {
        self.events.set(inputs);
        self.events.settle(&self.order);
        match self.events.edge(&self.blocks) {
            Ok(outputs) => Ok(outputs),
            Err(EdgeError::XValue { net }) => {
                let net = Net::Wire(net);
                Err(XValue { net })
            }
            Err(EdgeError::Busy { .. } | EdgeError::Order) => unreachable!(),
        }
    }

    /// The name of a net of the design.
    pub fn name(&self, net: Net) -> &str
        requires { IsNamed self.now.netlist net }
        ensures { result.now ≡ name_of self.now.netlist net }
    {
        self.events.name_of(net)
    }
}

impl Clocked for EventSim {
    ghost netlist = { λ s. s.netlist };

    ghost stored = { λ s. s.stored };

    fn clock(&mut self, inputs: &Inputs) -> Result<Outputs, XValue> {
        EventSim::clock(self, inputs)
    }

    fn name(&self, net: Net) -> &str {
        EventSim::name(self, net)
    }
}
