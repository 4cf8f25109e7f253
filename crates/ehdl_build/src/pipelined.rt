// The pipeline of a program.

ghost use Rattle.std.specs.Prelude.{◌≡◌, ◌<◌, ◌≤◌, ◌^◌, length, IfOk};
ghost use Rattle.xdp_object.specs.xdp_machine.Program.{IsProgram};
ghost use Rattle.xdp_state.specs.Reasons.{most_stages};
ghost use Rattle.net_core.specs.View.{netlist_of};
ghost use Rattle.verilog_write.specs.design_rules.Formed.{IsWellFormed};
ghost use Rattle.hazard_core.specs.cell_core.View.{program_of};
ghost use Rattle.hazard_core.specs.cell_core.Formed.{AreFormed};
ghost use Rattle.row_plan.specs.Plan.{IsPlan};
ghost use Rattle.ehdl_build.specs.PipePrograms.Prepared.{ArePrepared};
ghost use Rattle.ehdl_build.specs.Pipelines.{AreCellsOf, StandWithin};
ghost use Rattle.ehdl_build.specs.Compiled.{Realizes};
ghost use Rattle.ehdl_build.specs.Steps.{IsCounted, IsPlanWithin, IsSoundPipeline, IsPipelineOf, counted_size};

use crate::counted::Counted;
use crate::pipe_programs::laws::programs_are_prepared;
use crate::program_plan::laws::pipelinable;
use hazard_core::cell_core::program::CellProgram;
use hazard_core::cell_core::xdp_state::xdp_maps::decl::MapDecl;
use net_core::design::Design;
use net_optimize::optimized;
use pipe_design::{PipelineError, pipeline};
use pipe_runs::laws::pipelines_meet;
use predicate_core::program::to_cells;
use row_plan::{RowPlan, plan};
use std::alloc::{AllocError, Global};
use verilog_write::write_text;
use xdp_object::Program;
use xdp_state::BuildError;

// The plan of cells, of so many stages at most.
fn planned(alloc: Global, cells: &CellProgram, stages: u32) -> Result<RowPlan, AllocError>
    requires formed { AreFormed (program_of cells.now).cells }
    requires few { length cells.now.cells.items < 2 ^ 32 }
    requires stages { stages ≤ most_stages }
    requires within { StandWithin stages (program_of cells.now) }
    ensures { IfOk result (IsPlanWithin stages (program_of cells.now)) }
{
    match plan(alloc, cells) {
        Ok(plan) => Ok(plan),
        // No node makes a cell in a later row than the last stage.
        Err(BuildError::Refused(_)) => unreachable!(),
        Err(BuildError::NoMemory) => Err(AllocError),
    }
}

// The pipeline of planned cells with these maps, with products apart.
fn linked(
    alloc: Global,
    cells: &CellProgram,
    plan: &RowPlan,
    decls: &[MapDecl],
) -> Result<Design, AllocError>
    requires { ArePrepared (program_of cells.now) plan.now decls.now }
    ensures pipeline { IfOk result (λ d. IsSoundPipeline (program_of cells.now) plan.now decls.now (netlist_of d)) }
    ensures formed { IfOk result (λ d. IsWellFormed (netlist_of d)) }
{
    match pipeline(alloc, cells, plan, decls) {
        Ok(design) => Ok(design),
        // A graph has few nodes, each with one operation on a map at most.
        Err(PipelineError::TooManySites) => unreachable!(),
        // A number takes no other cell, so it stands in the first row.
        Err(PipelineError::LateNumber) => unreachable!(),
        // 2^32 nets are want of memory, too.
        Err(PipelineError::TooMany) | Err(PipelineError::NoMemory) => Err(AllocError),
    }
}

// The pipeline of a program, of the size at most that was counted.
fn pipeline_of(alloc: Global, program: &Program, counted: &Counted) -> Result<Design, AllocError>
    requires program { IsProgram program.now }
    requires counted { IsCounted program.now counted.now }
    ensures pipeline { IfOk result (λ d. IsPipelineOf program.now (counted_size counted.now) (netlist_of d)) }
    ensures formed { IfOk result (λ d. IsWellFormed (netlist_of d)) }
{
    programs_are_prepared();
    let cells = to_cells(alloc, program, &counted.graph)?;
    if cells.cells.len() > u32::MAX as usize {
        return Err(AllocError);
    }
    let plan = planned(alloc, &cells, counted.stages.rows)?;
    linked(alloc, &cells, &plan, program.decls())
}

/// The text of a pipeline of an accepted program, made shorter.
pub(crate) fn realize(
    alloc: Global,
    program: &Program,
    counted: &Counted,
) -> Result<Vec<u8>, AllocError>
    requires program { IsProgram program.now }
    requires counted { IsCounted program.now counted.now }
    ensures { IfOk result (λ text. Realizes text.items program.now (counted_size counted.now)) }
{
    pipelinable();
    pipelines_meet();
    let design = pipeline_of(alloc, program, counted)?;
    let shorter = optimized(alloc, design)?;
    let text = write_text(alloc, &shorter)?;
    Ok(text)
}
