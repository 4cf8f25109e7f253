// What is counted of a program: its graph and its stages.

ghost use Rattle.std.specs.Prelude.{◌≡◌, ◌⊎◌, IfErr, IfOk, IsErrOf};
ghost use Rattle.xdp_state.specs.declared.refusal.Refusal.{Refusal};
ghost use Rattle.row_rules.specs.NodeRows.Acceptance.{IsAccepted, IsFirstRefusal};
ghost use Rattle.ehdl_build.specs.Steps.{IsCounted, FailsCounting};

use kind_core::Offsets;
use row_rules::node_rows::{Stages, count_stages};
use std::alloc::Global;
use unfold_core::{Unfolded, unfold};
use xdp_object::Program;
use xdp_state::BuildError;

/// The graph of an accepted program, and its stages.
#[derive(Drop)]
pub(crate) struct Counted {
    pub(crate) graph: Unfolded,
    pub(crate) stages: Stages,
}

/// The graph and the stages of a program, or its first refusal.
pub(crate) fn count(alloc: Global, program: &Program) -> Result<Counted, BuildError>
    ensures counted { IfOk result (IsCounted program.now) }
    ensures fails { IfErr result (FailsCounting program.now) }
{
    let graph = unfold(alloc, program, Offsets::Fixed)?;
    let stages = count_stages(alloc, program, &graph)?;
    Ok(Counted { graph, stages })
}
