//! What runs a design clock by clock, however it works out a clock.

ghost use Rattle.std.specs.Prelude.{◌≡◌, Ok, Some, None, OnOk, IfOk, OnErr, IfErr};
ghost use Rattle.net_core.specs.Nets.{Netlist};
ghost use Rattle.net_core.specs.Clock.{Stored, clock, stopping};
ghost use Rattle.net_core.specs.Names.{name_of};
ghost use Rattle.net_core.specs.Ports.{AreInputs, words_of, outputs_of};
ghost use Rattle.clock_sim.specs.Running.{stopped_net, IsNamed};

use crate::sim::{Sim, XValue};
use net_core::ports::{Inputs, Outputs};
use net_core::tree::Net;

/// A design between two clocks. Each clock of it is the clock of the definition.
pub trait Clocked {
    /// The design.
    ghost netlist: { Self → Netlist };

    /// What its registers and memories hold.
    ghost stored: { Self → Stored };

    /// One clock: the outputs that the inputs show, and then the rising edge. Where a divisor is zero it gives the
    /// first such wire in text order, and what is stored stays.
    fn clock(&mut self, inputs: &Inputs) -> Result<Outputs, XValue>
        requires { AreInputs inputs.now }
        ensures netlist { netlist self.new ≡ netlist self.old }
        ensures runs { OnOk result (stopping (netlist self.old) (words_of inputs.now) (stored self.old) ≡ None) }
        ensures stored { OnOk result (clock (netlist self.old) (words_of inputs.now) (stored self.old) ≡ Ok (stored self.new)) }
        ensures outputs { IfOk result (λ o. o ≡ outputs_of (netlist self.old) inputs.now (stored self.old)) }
        ensures stops { IfErr result (λ x. stopped_net (netlist self.old) (words_of inputs.now) (stored self.old) ≡ Some x.net) }
        ensures unchanged { OnErr result (stored self.new ≡ stored self.old) };

    /// The name of a net of the design.
    fn name(&self, net: Net) -> &str
        requires { IsNamed (netlist self.now) net }
        ensures { result.now ≡ name_of (netlist self.now) net };
}

impl Clocked for Sim {
    ghost netlist = { λ s. s.netlist };

    ghost stored = { λ s. s.stored };

    fn clock(&mut self, inputs: &Inputs) -> Result<Outputs, XValue> {
        Sim::clock(self, inputs)
    }

    fn name(&self, net: Net) -> &str {
        Sim::name(self, net)
    }
}
