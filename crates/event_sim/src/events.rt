//! A design that is run by events.

ghost use Rattle.std.specs.Prelude.{◌≡◌, ℕ, ◌^◌, ◌<◌, ◌≤◌, ◌↔◌, true, false, None, Ok, All, length, map, IfOk, IfErr, OnOk, OnErr, IsTrue};
ghost use Rattle.net_core.specs.Clock.{clock, first_stored, stopping, shown};
ghost use Rattle.net_core.specs.Names.{name_of};
ghost use Rattle.net_core.specs.Ports.{AreInputs, words_of, outputs_at};
ghost use Rattle.net_core.specs.Value.{word, number_of};
ghost use Rattle.net_core.specs.View.{netlist_of};
ghost use Rattle.design_rules.specs.Formed.{IsWellFormed};
ghost use Rattle.clock_sim.specs.Running.{IsNamed};
ghost use Rattle.event_sim.specs.Events.{is_active, fired, passed, ran, events_in, swept, net_count, net_named, block_count, IsQuiet};
ghost use Rattle.event_sim.specs.Ends.{EndsFromAny, IsSettled, settled};
ghost use Rattle.event_sim.specs.Orders.{IsOrder, ClocksInAnyOrder};
ghost use Rattle.event_sim.specs.Refusals.{MayEdge, IsRefused};
ghost use Rattle.event_sim.specs.Inside.{net_widths};

use crate::edge::step;
use crate::held::Held;
use crate::names::net_named;
use crate::nets::{first_active, is_active, net_count, right_side, same_word};
use crate::outputs::write_inputs;
use crate::refusal::{EdgeError, refusal};
use crate::values::{NOTHING, Values};
use clock_sim::place_in;
use net_core::design::Design;
use net_core::ports::{Inputs, Outputs, PORT_COUNT, SILENT};
use net_core::scope::output_width;
use net_core::tree::{Net, Word};
use std::alloc::{AllocError, Global};
use std::marker::Model;
use thiserror::Error;

/// The net is not active.
#[derive(Clone, Copy, PartialEq, Eq, Debug, Error)]
#[error("the net stores the value of its right side")]
pub struct Quiet;

/// A design between two events. Its nets are numbered: the wires, and then the assigns of outputs, in text order.
#[derive(Drop)]
pub struct Events {
    design: Design,
    values: Values,
    next: Held,
}

impl Model for Events {
    ghost use Rattle.event_sim.specs.Events.{State, coded_state};

    ghost Value = { State };

    ghost coded = { coded_state };

    ghost use Rattle.event_sim.specs.Views.{state_of};
    ghost use Rattle.event_sim.specs.Inside.{IsInside};

    ghost view = { λ e. state_of e.design e.values };

    ghost invariant = { λ e. IsInside e.design e.values e.next };
}

// A word of each net: 0.
fn zeros(alloc: Global, design: &Design) -> Result<Vec<Word>, AllocError>
    ensures nets { IfOk result (λ v. v.items ≡ map (λ w. word w 0) (net_widths (netlist_of design.now))) }
    ensures few { OnOk result (net_count (netlist_of design.now) ≤ 2 ^ 32) }
{
    if net_count(design) > u32::MAX as usize {
        return Err(AllocError);
    }
    let mut nets = Vec::new(alloc);
    let wires = design.wires.as_slice();
    for wire in wires {
        let width = wire.width;
        nets.push(Word { width, value: 0 })?;
    }
    let assigns = design.assigns.as_slice();
    for assign in assigns {
        let width = output_width(&design.ports, assign.port);
        nets.push(Word { width, value: 0 })?;
    }
    Ok(nets)
}

impl Events {
    /// All nets store 0, and registers and memories their declared values; nothing is offered at the inputs. A design of more
    /// than 2 to the power 32 nets is refused as too large for memory. Nothing else takes memory.
    pub fn open(alloc: Global, design: Design) -> Result<Events, AllocError>
        requires { IsWellFormed (netlist_of design) }
        ensures { IfOk result (λ e. e ≡ record {
          netlist = netlist_of design;
          ins = words_of SILENT;
          stored = first_stored (netlist_of design);
          nets = map (λ w. word w 0) (net_widths (netlist_of design));
        }) }
    {
        let nets = zeros(alloc, &design)?;
        let mut ports = vec![in alloc; NOTHING; PORT_COUNT]?;
        write_inputs(SILENT, &mut ports);
        let held = Held::first(alloc, &design.declared)?;
        let next = Held::first(alloc, &design.declared)?;
        let values = Values { ports, held, nets };
        Ok(Events {
            design,
            values,
            next,
        })
    }

    /// How many nets there are.
    pub fn net_count(&self) -> usize
        ensures count { result ≡ net_count self.now.netlist }
        ensures few { result ≤ 2 ^ 32 }
    {
        net_count(&self.design)
    }

    /// How many always blocks there are.
    pub fn block_count(&self) -> usize
        ensures { result ≡ block_count self.now.netlist }
    {
        self.design.always.len()
    }

    /// The name of a wire, or of the output of an assign.
    pub fn name(&self, net: u32) -> &str
        requires { net < net_count self.now.netlist }
        ensures { result.now ≡ name_of self.now.netlist (net_named self.now.netlist net) }
    {
        let named = net_named(&self.design, net);
        self.design.names[place_in(&self.design, named)].as_str()
    }

    /// The name of any net of the design.
    pub fn name_of(&self, net: Net) -> &str
        requires { IsNamed self.now.netlist net }
        ensures { result.now ≡ name_of self.now.netlist net }
    {
        self.design.names[place_in(&self.design, net)].as_str()
    }

    /// Other inputs. Nets keep their values.
    pub fn set(&mut self, inputs: &Inputs)
        requires { AreInputs inputs.now }
        ensures { self.new ≡ record self.old { ins = words_of inputs.now } }
    {
        write_inputs(*inputs, &mut self.values.ports);
    }

    /// Whether the stored value of a net differs from that of its right side.
    pub fn active(&self, net: u32) -> bool
        requires { net < net_count self.now.netlist }
        ensures { result ≡ is_active self.now net }
    {
        is_active(&self.design, &self.values, net as usize)
    }

    /// Whether no net is active.
    pub fn quiet(&self) -> bool
        ensures quiet { IsTrue result ↔ IsQuiet self.now }
        ensures settled { IsTrue result → IsSettled self.now }
    {
        match first_active(&self.design, &self.values) {
            None => true,
            Some(_) => false,
        }
    }

    /// Lets an active net take the value of its right side.
    pub fn fire(&mut self, net: u32) -> Result<(), Quiet>
        requires { net < net_count self.old.netlist }
        ensures active { OnOk result (is_active self.old net ≡ true) }
        ensures fires { OnOk result (self.new ≡ fired self.old net) }
        ensures quiet { OnErr result (is_active self.old net ≡ false) }
        ensures unchanged { OnErr result (self.new ≡ self.old) }
        ensures ends { EndsFromAny self.old }
    {
        let word = right_side(&self.design, &self.values, net as usize);
        if same_word(self.values.nets[net as usize], word) {
            return Err(Quiet);
        }
        self.values.nets[net as usize] = word;
        Ok(())
    }

    // Fires a net where it is active, and gives how many fired.
    fn pass(&mut self, net: u32) -> u64
        requires { net < net_count self.old.netlist }
        ensures passes { self.new ≡ passed self.old net }
        ensures fired { result ≡ number_of (is_active self.old net) }
    {
        match self.fire(net) {
            Ok(()) => 1,
            Err(Quiet) => 0,
        }
    }

    /// Fires these nets in turn, and passes over those that are not active then. It gives how many fired.
    pub fn run(&mut self, picks: &[u32]) -> u64
        requires { All (λ n. n < net_count self.old.netlist) picks.now }
        ensures ran { self.new ≡ ran self.old picks.now }
        ensures fired { result ≡ events_in self.old picks.now }
        ensures few { result < 2 ^ net_count self.old.netlist }
    {
        // What holds inside bounds the events.
        let _ = &self.design;
        let mut fired = 0;
        for pick in picks {
            fired += self.pass(*pick);
        }
        fired
    }

    /// Sweeps over all nets, in this order, until none fires. It gives the number of sweeps in which a net fires, which is
    /// the number of nets at most: in text order it is 1 at most, and a second sweep finds that none fires.
    pub fn settle(&mut self, order: &[u32]) -> usize
        requires { IsOrder (net_count self.old.netlist) order.now }
        ensures settles { self.new ≡ record self.old { nets = settled self.old } }
        ensures quiet { IsQuiet self.new }
        ensures settled { IsSettled self.new }
        ensures sweeps { self.new ≡ swept self.old order.now result }
        ensures busy { (k : ℕ) → k < result → 0 < events_in (swept self.old order.now k) order.now }
        ensures few { result ≤ net_count self.old.netlist }
    {
        let count = net_count(&self.design);
        for sweeps in 0..count {
            if self.run(order) == 0 {
                return sweeps;
            }
        }
        count
    }

    /// The outputs, and then the rising edge, with the always blocks in this order. Where it is refused nothing changes.
    pub fn edge(&mut self, blocks: &[u32]) -> Result<Outputs, EdgeError>
        ensures may { OnOk result (MayEdge self.old blocks.now) }
        ensures stored { OnOk result (clock self.old.netlist self.old.ins self.old.stored ≡ Ok self.new.stored) }
        ensures kept { OnOk result (self.new ≡ record self.old { stored = self.new.stored }) }
        ensures outputs { IfOk result (λ o. o ≡ outputs_at (λ port. (shown self.old.netlist self.old.ins self.old.stored port).value)) }
        ensures refused { IfErr result (λ e. IsRefused self.old blocks.now e) }
        ensures unchanged { OnErr result (self.new ≡ self.old) }
        ensures any_order { ClocksInAnyOrder self.old.netlist self.old.ins self.old.stored }
    {
        match refusal(&self.design, &self.values, blocks) {
            Some(error) => Err(error),
            None => {
                let outputs = step(&self.design, &mut self.values, &mut self.next, blocks);
                Ok(outputs)
            }
        }
    }
}
