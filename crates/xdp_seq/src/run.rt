// The run of a packet.

ghost use Rattle.std.specs.Prelude.{◌≡◌, ◌<◌, ◌^◌, length};
ghost use Rattle.xdp_state.specs.xdp_machine.Runs.{run};
ghost use Rattle.xdp_state.specs.Machines.{machine_of};
ghost use Rattle.xdp_seq.specs.Units.{AreUnits, code_of};
ghost use Rattle.xdp_seq.specs.Answers.{Answers};

use crate::flow::Flow;
use crate::step::step;
use xdp_state::State;
use xdp_state::bpf_isa::Insn;
use xdp_state::xdp_maps::state::Maps;

/// The most instructions of one run.
pub const STEP_LIMIT: u32 = 1_048_576;

/// What a packet leaves with beside its frame.
#[derive(Clone, Copy, Debug, PartialEq, Eq)]
pub struct Ended {
    /// The low 32 bits of R0.
    pub verdict: u32,
    /// The interface that the last redirect recorded, or 0.
    pub target: u32,
}

/// Why a run has no end.
#[derive(Clone, Copy, Debug, PartialEq, Eq, thiserror::Error)]
pub enum SeqError {
    /// The machine has no case for what is to be done at this place.
    #[error("no case at unit {at}")]
    Stuck { at: u32 },
    /// `STEP_LIMIT` instructions have been done, and the next stands at this place.
    #[error("no end, at unit {at}")]
    Spent { at: u32 },
}

/// The steps of a run, from a state on.
pub(crate) fn run(
    units: &[Option<Insn>],
    refs: &[u32],
    state: &mut State,
    frame: &mut [u8],
    maps: &mut Maps,
) -> Result<Ended, SeqError>
    requires { AreUnits units.now }
    ensures { let r = run (code_of units.now refs.now) STEP_LIMIT (machine_of state.old frame.old maps.old) in
        Answers result r frame.new maps.new }
{
    for _ in 0..STEP_LIMIT {
        match step(units, refs, state, frame, maps) {
            Flow::Next => {}
            Flow::Ended(verdict) => {
                return Ok(Ended {
                    verdict,
                    target: state.target,
                });
            }
            Flow::Stuck => return Err(SeqError::Stuck { at: state.place }),
        }
    }
    Err(SeqError::Spent { at: state.place })
}
