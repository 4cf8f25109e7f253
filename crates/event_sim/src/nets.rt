//! The nets of a design: what their right sides say, and which are active.

ghost use Rattle.std.specs.Prelude.{◌≡◌, ℕ, ◌<◌, ◌==◌, false, MatchOption};
ghost use Rattle.net_core.specs.Clock.{stopping};
ghost use Rattle.net_core.specs.View.{netlist_of};
ghost use Rattle.event_sim.specs.Events.{right_side, same_word, is_active, net_count, IsQuiet};
ghost use Rattle.event_sim.specs.Views.{state_of};
ghost use Rattle.event_sim.specs.Inside.{IsState};
ghost use Rattle.event_sim.specs.Refusals.{IsFirstActive};

use crate::evaluate::{right_value_of, stops, value_of};
use crate::values::Values;
use net_core::design::Design;
use net_core::tree::Word;

/// How many nets a design has: its wires and the assigns of its outputs.
pub fn net_count(design: &Design) -> usize
    ensures { result ≡ net_count (netlist_of design.now) }
{
    let wires = design.wires.as_slice();
    let assigns = design.assigns.as_slice();
    wires.len() + assigns.len()
}

/// The value of a net's right side.
pub fn right_side(design: &Design, values: &Values, net: usize) -> Word
    requires there { net < net_count (netlist_of design.now) }
    requires state { IsState (state_of design.now values.now) }
    ensures { result ≡ right_side (state_of design.now values.now) net }
{
    let wires = design.wires.as_slice();
    if net < wires.len() {
        let wire = &wires[net];
        return right_value_of(&wire.right, values);
    }
    let assigns = design.assigns.as_slice();
    let place = net - wires.len();
    let assign = &assigns[place];
    value_of(&assign.value, values)
}

/// Whether two words are the same.
pub fn same_word(a: Word, b: Word) -> bool
    ensures { result ≡ same_word a b }
{
    a.width == b.width && a.value == b.value
}

/// Whether a net stores another value than its right side has.
pub fn is_active(design: &Design, values: &Values, net: usize) -> bool
    requires there { net < net_count (netlist_of design.now) }
    requires state { IsState (state_of design.now values.now) }
    ensures { result ≡ is_active (state_of design.now values.now) net }
{
    !same_word(values.nets[net], right_side(design, values, net))
}

/// The first net that is active.
pub fn first_active(design: &Design, values: &Values) -> Option<u32>
    requires { IsState (state_of design.now values.now) }
    ensures { MatchOption result (IsQuiet (state_of design.now values.now)) (λ n. IsFirstActive (state_of design.now values.now) n) }
{
    for net in 0..net_count(design) {
        if is_active(design, values, net) {
            return Some(net as u32);
        }
    }
    None
}

/// The first wire whose divisor is zero, where no net is active: that at which the clock stops.
pub fn first_stop(design: &Design, values: &Values) -> Option<u32>
    requires state { IsState (state_of design.now values.now) }
    requires quiet { IsQuiet (state_of design.now values.now) }
    ensures { result ≡ stopping (netlist_of design.now) values.now.ports.items values.now.held }
{
    let wires = design.wires.as_slice();
    for (at, wire) in wires.iter().enumerate() {
        if stops(&wire.right, values) {
            return Some(at as u32);
        }
    }
    None
}
