// The loops of a program.

ghost use Rattle.std.specs.Prelude.{◌≡◌};
ghost use Rattle.unfold_core.specs.Loops.{FindsLoops};
ghost use Rattle.unfold_core.specs.Tables.{first_place};

use crate::tables::{least_crossed, loops_below};
use crate::units::units_of;
use std::alloc::Global;
use xdp_object::Program;
use xdp_state::{BuildError, Refusal, Why};

/// The most units of a program.
pub const MOST_UNITS: usize = 4096;

/// A loop: the places from its head to the last place that jumps back to it.
#[derive(Copy, Clone, Debug, PartialEq, Eq)]
pub struct Loop {
    pub head: u32,
    pub last: u32,
}

// The first place that refuses a program of so many units, by the least last place of a loop that is crossed.
fn first_place(least: Option<u32>, units: usize) -> Option<Refusal>
    ensures { result ≡ first_place least units }
{
    let too_long = Refusal {
        at: MOST_UNITS as u32,
        why: Why::Size,
    };
    match least {
        Some(at) if (at as usize) < MOST_UNITS || units <= MOST_UNITS => Some(Refusal {
            at,
            why: Why::Loop,
        }),
        Some(_) => Some(too_long),
        None => (MOST_UNITS < units).then_some(too_long),
    }
}

/// The loops of a program, by their heads, which ascend, so that outer loops come before inner ones. Without want of memory a refusal
/// comes exactly where a place refuses the program, and is the first one: `Size` at place 4,096 of a program with more units, or `Loop`
/// at the last place of a loop that begins inside another one and ends after it.
pub fn loops(alloc: Global, program: &Program) -> Result<Vec<Loop>, BuildError>
    ensures { FindsLoops program.now.insns result }
{
    let Ok(units) = units_of(alloc, program.insns()) else {
        return Err(BuildError::NoMemory);
    };
    let Ok(loops) = loops_below(alloc, &units, units.len().min(MOST_UNITS)) else {
        return Err(BuildError::NoMemory);
    };
    match first_place(least_crossed(&loops), units.len()) {
        Some(refusal) => Err(BuildError::Refused(refusal)),
        None => Ok(loops),
    }
}
