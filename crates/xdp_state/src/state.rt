// What the machine holds beside the frame and the maps.

use crate::registers::Registers;
use crate::stack::Stack;
use beat_core::Meta;

/// The machine but for its frame and its maps.
#[derive(Drop)]
pub struct State {
    pub registers: Registers,
    pub stack: Stack,
    /// The interface that the frame came in by.
    pub ifindex: u32,
    /// When it was captured, in nanoseconds.
    pub time: u64,
    /// The interface that a redirect recorded.
    pub target: u32,
    /// The unit with which the next instruction begins.
    pub place: u32,
}

impl State {
    ghost use Rattle.std.specs.Prelude.{◌≡◌, List, ℕ, replicate};
    ghost use Rattle.xdp_machine.specs.Values as seen;
    ghost use Rattle.xdp_machine.specs.xdp_maps.State.{MapState};
    ghost use Rattle.xdp_machine.specs.State.{start};
    ghost use Rattle.xdp_state.specs.Machines.{machine_of};

    /// Nothing is held, and the place is the first.
    pub fn new() -> State
        ensures registers { result.registers ≡ replicate 11 seen.Unset }
        ensures stack { result.stack ≡ replicate 64 seen.Unset }
        ensures rest { (result.ifindex ≡ 0) × (result.time ≡ 0) × (result.target ≡ 0) × (result.place ≡ 0) }
    {
        State {
            registers: Registers::new(),
            stack: Stack::new(),
            ifindex: 0,
            time: 0,
            target: 0,
            place: 0,
        }
    }

    /// The start of a run, whatever the frame and the maps are.
    pub fn restart(&mut self, meta: Meta)
        ensures { (frame : List ℕ) (maps : MapState) → machine_of self.new frame maps ≡ start (record { frame = frame; ifindex = meta.ifindex; time = meta.time }) maps }
    {
        self.registers.restart();
        self.stack.clear();
        self.ifindex = meta.ifindex;
        self.time = meta.time;
        self.target = 0;
        self.place = 0;
    }
}
