//! One clock of a drive.

ghost use Rattle.std.specs.Prelude.{◌≡◌, Some, None, option_map, OnOk, IfOk, OnErr, IfErr};
ghost use Rattle.net_core.specs.Clock.{after, stopping};
ghost use Rattle.net_core.specs.Ports.{AreInputs, words_of, outputs_of};
ghost use Rattle.net_core.specs.Trace.{cycle_of};
ghost use Rattle.realization.specs.History.{drive_inputs, left_after, inputs_with};
ghost use Rattle.clock_sim.specs.Running.{stopped_net};
ghost use Rattle.port_drive.specs.Offering.{offered_of};

use crate::frame_room::{FrameRoom, Offer};
use clock_sim::{Clocked, XValue};
use net_core::ports::{Inputs, Outputs, SILENT};

// What stands at the inputs while a beat is offered, or none.
fn inputs_with(offer: Option<Offer>) -> Inputs
    ensures { result ≡ inputs_with (option_map offered_of offer) }
{
    let taking = Inputs {
        out_ready: true,
        ..SILENT
    };
    match offer {
        None => taking,
        Some(o) => Inputs {
            in_valid: true,
            in_data: o.beat.word,
            in_bytes: o.beat.bytes,
            in_last: o.beat.last,
            in_ifindex: o.ifindex,
            in_time: o.time,
            ..taking
        },
    }
}

/// One clock, in which the first beat that is left is offered. It is taken where it goes over. A clock that stops
/// leaves what is stored.
pub(crate) fn advance<C: Clocked>(sim: &mut C, left: &mut FrameRoom) -> Result<Outputs, XValue>
    ensures netlist { C.netlist sim.new ≡ C.netlist sim.old }
    ensures runs { OnOk result (stopping (C.netlist sim.old) (words_of (drive_inputs left.old)) (C.stored sim.old) ≡ None) }
    ensures stored { OnOk result (C.stored sim.new ≡ after (C.netlist sim.old) (words_of (drive_inputs left.old)) (C.stored sim.old)) }
    ensures outputs { IfOk result (λ o. o ≡ outputs_of (C.netlist sim.old) (drive_inputs left.old) (C.stored sim.old)) }
    ensures left { OnOk result (left.new ≡ left_after (cycle_of (C.netlist sim.old) (C.stored sim.old) (drive_inputs left.old)) left.old) }
    ensures stops { IfErr result (λ x. stopped_net (C.netlist sim.old) (words_of (drive_inputs left.old)) (C.stored sim.old) ≡ Some x.net) }
    ensures unchanged { OnErr result (C.stored sim.new ≡ C.stored sim.old) }
    ensures kept { OnErr result (left.new ≡ left.old) }
{
    let inputs = inputs_with(left.first());
    let shown = match sim.clock(&inputs) {
        Ok(shown) => shown,
        Err(stopped) => return Err(stopped),
    };
    if shown.in_ready {
        left.take();
    }
    Ok(shown)
}
