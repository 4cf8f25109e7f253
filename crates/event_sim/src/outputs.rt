//! The words at the ports of a design.

ghost use Rattle.std.specs.Prelude.{◌≡◌, ◌<◌, length, map};
ghost use Rattle.std.proofs.Common.{get_or};
ghost use Rattle.net_core.specs.Value.{nothing};
ghost use Rattle.net_core.specs.Ports.{input_width, words_of, FitInputs, FitOutputs, outputs_at};
ghost use Rattle.net_core.specs.View.{assign_of};
ghost use Rattle.event_sim.specs.Showing.{stored_for};

use net_core::design::{Assign, Port};
use net_core::ports::{Inputs, Outputs, PORT_COUNT, PORTS, numbers_at, outputs_at};
use net_core::tree::Word;

// The width that is read of a port.
fn input_width(port: Port) -> u8
    ensures { result ≡ input_width port }
{
    if port.output { 0 } else { port.width }
}

/// Writes the words of inputs: `clk` and the outputs have none.
pub fn write_inputs(inputs: Inputs, ports: &mut [Word])
    requires { length ports.old ≡ PORT_COUNT }
    ensures words { ports.new ≡ words_of inputs }
    ensures fit { FitInputs inputs }
{
    let numbers = numbers_at(inputs);
    for port in 0..PORT_COUNT {
        let width = input_width(PORTS[port]);
        let value = numbers[port];
        ports[port] = Word { width, value };
    }
}

// The number that is stored for a port, by the first assign that has it, and 0 where none has.
fn number_for(assigns: &[Assign], words: &[Word], port: u32) -> u64
    requires { length assigns.now ≡ length words.now }
    ensures { result ≡ (stored_for (map assign_of assigns.now) words.now port).value }
{
    for (at, assign) in assigns.iter().enumerate() {
        if assign.port == port {
            return words[at].value;
        }
    }
    0
}

/// What the outputs show, from the words that are stored for assigns.
pub fn shown(assigns: &[Assign], words: &[Word]) -> Outputs
    requires count { length assigns.now ≡ length words.now }
    requires fit { FitOutputs (λ port. (stored_for (map assign_of assigns.now) words.now port).value) }
    ensures { result ≡ outputs_at (λ port. (stored_for (map assign_of assigns.now) words.now port).value) }
{
    let mut numbers = [0; PORT_COUNT];
    for port in 0..PORT_COUNT {
        numbers[port] = number_for(assigns, words, port as u32);
    }
    outputs_at(&numbers)
}
