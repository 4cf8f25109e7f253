// What is counted of a program: its graph and its stages.

ghost use Rattle.std.specs.Prelude.{IfErr, IfOk};
ghost use Rattle.prepare_core.specs.Counted.{IsCounted, FailsCounting};

use kind_core::Offsets;
use row_rules::node_rows::{Stages, count_stages};
use std::alloc::Global;
use unfold_core::{Unfolded, unfold};
use xdp_object::Program;
use xdp_state::BuildError;

/// The graph of an accepted program, and its stages.
#[derive(Drop)]
pub struct Counted {
    pub graph: Unfolded,
    pub stages: Stages,
}

/// The graph and the stages of a program, where offsets into the packet may vary or not, or its first refusal.
pub fn count(alloc: Global, program: &Program, offsets: Offsets) -> Result<Counted, BuildError>
    ensures counted { IfOk result (IsCounted offsets program.now) }
    ensures fails { IfErr result (FailsCounting offsets program.now) }
{
    let graph = unfold(alloc, program, offsets)?;
    let stages = count_stages(alloc, program, &graph)?;
    Ok(Counted { graph, stages })
}
