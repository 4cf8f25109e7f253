//! The ports that every design has.

ghost use Rattle.std.specs.Prelude.{◌≡◌};
ghost use Rattle.std.proofs.Common.{get_or};
ghost use Rattle.net_core.specs.Value.{number_of};
ghost use Rattle.net_core.specs.Ports.{FitInputs, FitOutputs, numbers_of, outputs_at};

use crate::design::Port;

/// How many ports every design has.
pub const PORT_COUNT: usize = 24;

// Where each port stands in the table.
pub const CLK: u32 = 0;

pub const IN_VALID: u32 = 1;

pub const IN_DATA: u32 = 2;

pub const IN_BYTES: u32 = 3;

pub const IN_LAST: u32 = 4;

pub const IN_IFINDEX: u32 = 5;

pub const IN_TIME: u32 = 6;

pub const IN_READY: u32 = 7;

pub const OUT_READY: u32 = 8;

pub const OUT_VALID: u32 = 9;

pub const OUT_DATA: u32 = 10;

pub const OUT_BYTES: u32 = 11;

pub const OUT_LAST: u32 = 12;

pub const OUT_VERDICT: u32 = 13;

pub const OUT_TARGET: u32 = 14;

pub const OUT_RELOAD: u32 = 15;

pub const HOST_WRITE: u32 = 16;

pub const HOST_MAP: u32 = 17;

pub const HOST_INDEX: u32 = 18;

pub const HOST_WORD: u32 = 19;

pub const HOST_DATA: u32 = 20;

pub const HOST_VALUE: u32 = 21;

pub const HOST_READY: u32 = 22;

pub const HOST_PASSED: u32 = 23;

/// The names of the ports of every design, in their order.
pub const PORT_NAMES: [&str; PORT_COUNT] = [
    "clk",
    "in_valid",
    "in_data",
    "in_bytes",
    "in_last",
    "in_ifindex",
    "in_time",
    "in_ready",
    "out_ready",
    "out_valid",
    "out_data",
    "out_bytes",
    "out_last",
    "out_verdict",
    "out_target",
    "out_reload",
    "host_write",
    "host_map",
    "host_index",
    "host_word",
    "host_data",
    "host_value",
    "host_ready",
    "host_passed",
];

/// Which of them are outputs, and the width of each.
pub const PORTS: [Port; PORT_COUNT] = [
    Port {
        output: false,
        width: 1,
    },
    Port {
        output: false,
        width: 1,
    },
    Port {
        output: false,
        width: 64,
    },
    Port {
        output: false,
        width: 4,
    },
    Port {
        output: false,
        width: 1,
    },
    Port {
        output: false,
        width: 32,
    },
    Port {
        output: false,
        width: 64,
    },
    Port {
        output: true,
        width: 1,
    },
    Port {
        output: false,
        width: 1,
    },
    Port {
        output: true,
        width: 1,
    },
    Port {
        output: true,
        width: 64,
    },
    Port {
        output: true,
        width: 4,
    },
    Port {
        output: true,
        width: 1,
    },
    Port {
        output: true,
        width: 32,
    },
    Port {
        output: true,
        width: 32,
    },
    Port {
        output: true,
        width: 1,
    },
    Port {
        output: false,
        width: 1,
    },
    Port {
        output: false,
        width: 4,
    },
    Port {
        output: false,
        width: 16,
    },
    Port {
        output: false,
        width: 4,
    },
    Port {
        output: false,
        width: 64,
    },
    Port {
        output: true,
        width: 64,
    },
    Port {
        output: true,
        width: 1,
    },
    Port {
        output: true,
        width: 32,
    },
];

/// What stands at the inputs in one clock, `clk` apart.
#[derive(Clone, Copy, PartialEq, Eq, Debug)]
pub struct Inputs {
    pub in_valid: bool,
    pub in_data: u64,
    /// Below 16.
    pub in_bytes: u8,
    pub in_last: bool,
    pub in_ifindex: u32,
    /// In nanoseconds.
    pub in_time: u64,
    pub out_ready: bool,
    pub host_write: bool,
    /// Below 16.
    pub host_map: u8,
    pub host_index: u16,
    /// Below 16.
    pub host_word: u8,
    pub host_data: u64,
}

/// Nothing is offered or taken, and the host is silent.
pub const SILENT: Inputs = Inputs {
    in_valid: false,
    in_data: 0,
    in_bytes: 0,
    in_last: false,
    in_ifindex: 0,
    in_time: 0,
    out_ready: false,
    host_write: false,
    host_map: 0,
    host_index: 0,
    host_word: 0,
    host_data: 0,
};

/// What the outputs show in one clock.
#[derive(Clone, Copy, PartialEq, Eq, Debug)]
pub struct Outputs {
    pub in_ready: bool,
    pub out_valid: bool,
    pub out_data: u64,
    /// Below 16.
    pub out_bytes: u8,
    pub out_last: bool,
    pub out_verdict: u32,
    pub out_target: u32,
    pub out_reload: bool,
    pub host_value: u64,
    pub host_ready: bool,
    pub host_passed: u32,
}

fn number_of(holds: bool) -> u64
    ensures { result ≡ number_of holds }
{
    u64::from(holds)
}

/// The number at each port, by its place: `clk` and the outputs have none.
pub fn numbers_at(i: Inputs) -> [u64; PORT_COUNT]
    ensures numbers { result ≡ numbers_of i }
    ensures fit { FitInputs i }
{
    let mut numbers = [0; PORT_COUNT];
    numbers[IN_VALID as usize] = number_of(i.in_valid);
    numbers[IN_DATA as usize] = i.in_data;
    numbers[IN_BYTES as usize] = u64::from(i.in_bytes);
    numbers[IN_LAST as usize] = number_of(i.in_last);
    numbers[IN_IFINDEX as usize] = u64::from(i.in_ifindex);
    numbers[IN_TIME as usize] = i.in_time;
    numbers[OUT_READY as usize] = number_of(i.out_ready);
    numbers[HOST_WRITE as usize] = number_of(i.host_write);
    numbers[HOST_MAP as usize] = u64::from(i.host_map);
    numbers[HOST_INDEX as usize] = u64::from(i.host_index);
    numbers[HOST_WORD as usize] = u64::from(i.host_word);
    numbers[HOST_DATA as usize] = i.host_data;
    numbers
}

/// What the outputs show, from the number at each port by its place.
pub fn outputs_at(numbers: &[u64; PORT_COUNT]) -> Outputs
    requires { FitOutputs (λ k. get_or numbers.now k 0) }
    ensures { result ≡ outputs_at (λ k. get_or numbers.now k 0) }
{
    Outputs {
        in_ready: numbers[IN_READY as usize] == 1,
        out_valid: numbers[OUT_VALID as usize] == 1,
        out_data: numbers[OUT_DATA as usize],
        out_bytes: numbers[OUT_BYTES as usize] as u8,
        out_last: numbers[OUT_LAST as usize] == 1,
        out_verdict: numbers[OUT_VERDICT as usize] as u32,
        out_target: numbers[OUT_TARGET as usize] as u32,
        out_reload: numbers[OUT_RELOAD as usize] == 1,
        host_value: numbers[HOST_VALUE as usize],
        host_ready: numbers[HOST_READY as usize] == 1,
        host_passed: numbers[HOST_PASSED as usize] as u32,
    }
}
