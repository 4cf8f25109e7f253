//! One clock in which the host writes or reads a word.

ghost use Rattle.std.specs.Prelude.{◌≡◌, ◌<◌, ◌∷◌, [], IfOk};
ghost use Rattle.net_core.specs.Ports.{outputs_of};
ghost use Rattle.realization.specs.HostHistory.Host.{asked, written};
ghost use Rattle.port_drive.specs.Hosting.{Clocks};

use clock_sim::{Clocked, XValue};
use net_core::ports::{Inputs, SILENT};

fn asked(map: u8, index: u16, word: u8) -> Inputs
    ensures { result ≡ asked map index word }
{
    Inputs {
        host_map: map,
        host_index: index,
        host_word: word,
        ..SILENT
    }
}

/// A clock in which the host writes a word under an index of a map.
pub(crate) fn write_word<C: Clocked>(
    sim: &mut C,
    map: u8,
    index: u16,
    word: u8,
    number: u64,
) -> Result<(), XValue>
    requires map { map < 16 }
    requires word { word < 16 }
    ensures netlist { C.netlist sim.new ≡ C.netlist sim.old }
    ensures clocks { Clocks (C.netlist sim.old) (C.stored sim.old) (written map index word number ∷ []) result (C.stored sim.new) }
{
    let inputs = Inputs {
        host_write: true,
        host_data: number,
        ..asked(map, index, word)
    };
    match sim.clock(&inputs) {
        Ok(_) => Ok(()),
        Err(stopped) => Err(stopped),
    }
}

/// A clock in which the host reads a word under an index of a map.
pub(crate) fn read_word<C: Clocked>(
    sim: &mut C,
    map: u8,
    index: u16,
    word: u8,
) -> Result<u64, XValue>
    requires map { map < 16 }
    requires word { word < 16 }
    ensures netlist { C.netlist sim.new ≡ C.netlist sim.old }
    ensures clocks { Clocks (C.netlist sim.old) (C.stored sim.old) (asked map index word ∷ []) result (C.stored sim.new) }
    ensures shown { IfOk result (λ shown. shown ≡ (outputs_of (C.netlist sim.old) (asked map index word) (C.stored sim.old)).host_value) }
{
    match sim.clock(&asked(map, index, word)) {
        Ok(shown) => Ok(shown.host_value),
        Err(stopped) => Err(stopped),
    }
}
