//! What is worked out of a program before the parts of its pipeline are made.

ghost use Rattle.std.specs.Prelude.{◌≡◌, ◌≤◌, ◌<◌, ◌^◌, IfOk, IsErrOf, length, slice_index};
ghost use Rattle.hazard_core.specs.cell_core.View.{program_of};
ghost use Rattle.stage_net.specs.SiteTable.Constants.{AreEarly};
ghost use Rattle.pipe_parts.specs.declared.pipe_draft.error.PipelinePlanError.TheVariants as error;
ghost use Rattle.pipe_parts.specs.PipeDraft.Program.{IsForPipe};
ghost use Rattle.pipe_parts.specs.PipeDraft.PipelinePlan.{most_sites, IsPipelinePlanOf};

use crate::pipe_draft::error::PipelinePlanError;
use crate::pipe_draft::forms::forms_of;
use crate::pipe_draft::kept::kept_words;
use crate::pipe_draft::sites::{load_sites, record_sites};
use crate::pipe_draft::sources::source_list;
use block_core::name::Name;
use commit_net::map_block::MapForm;
use frame_net::Kept;
use hazard_core::cell_core::program::CellProgram;
use hazard_core::cell_core::xdp_state::xdp_maps::decl::MapDecl;
use overlay_net::cell_nets::operand::Operand;
use pipe_net::parts::{Part, Sizes};
use row_net::needed::needed;
use row_net::table::constants;
use row_plan::RowPlan;
use stage_net::site_table::bits::pointer_bits;
use stage_net::site_table::constants::are_early;
use stage_net::site_table::parts::site_parts;
use stage_net::site_table::pointing::{plain_pointers, pointing};
use std::alloc::{AllocError, Global};

/// How many sites a program may have.
const MOST_SITES: usize = 65536;

/// A program with what is worked out of it: its plan, the rows of its cells, and its maps; how many parts of each sort there are; which cells are needed, which are of sites, and which
/// may have pointers; how many bits the numbers of pointers have; which cells come with a packet, and what is kept of frames for them; what stands for the cells that are the same
/// for all packets, and for the pointers of those that have none; the sites that read a word under a pointer, and those that may write.
#[derive(Drop)]
pub struct PipelinePlan<'a> {
    pub program: &'a CellProgram,
    pub plan: &'a RowPlan,
    pub rows: Vec<u32>,
    pub forms: Vec<MapForm>,
    pub sizes: Sizes,
    pub needed: Vec<bool>,
    pub parts: Vec<bool>,
    pub points: Vec<bool>,
    pub bits: u8,
    pub sources: Vec<u32>,
    pub kept: Vec<Kept>,
    pub constants: Vec<Option<Operand<Name<Part>>>>,
    pub plain: Vec<Option<Operand<Name<Part>>>>,
    pub loads: Vec<u32>,
    pub records: Vec<u32>,
}

// The rows of all cells.
fn rows_of(alloc: Global, program: &CellProgram, plan: &RowPlan) -> Result<Vec<u32>, AllocError>
    requires few { length program.now.cells.items < 2 ^ 32 }
    requires count { length plan.now.rows ≡ length program.now.cells.items }
    ensures { IfOk result (λ rows. rows.items ≡ plan.now.rows) }
{
    let mut rows = Vec::new(alloc);
    for cell in 0..program.cells.len() as u32 {
        rows.push(plan.row_of(cell))?;
    }
    Ok(rows)
}

// How many parts of each sort there are, for so many maps and sites that read a word.
fn sizes(plan: &RowPlan, maps: usize, loads: usize) -> Sizes
    requires maps { maps ≤ 16 }
    requires loads { loads ≤ most_sites }
    ensures { result ≡ record { commit = plan.now.commit; last = plan.now.last; maps = maps; loads = loads } }
{
    Sizes {
        commit: plan.commit_row(),
        last: plan.rows(),
        maps: maps as u32,
        loads: loads as u32,
    }
}

// The pipeline plan of a program that is not refused.
fn worked_out<'a>(
    alloc: Global,
    program: &'a CellProgram,
    plan: &'a RowPlan,
    decls: &[MapDecl],
) -> Result<PipelinePlan<'a>, AllocError>
    requires program { IsForPipe (program_of program.now) plan.now decls.now }
    requires few { length program.now.sites.items ≤ most_sites }
    requires early { AreEarly (program_of program.now) (slice_index plan.now.rows) }
    ensures { IfOk result (IsPipelinePlanOf program.now plan.now decls.now) }
{
    let needed = needed(alloc, program)?;
    let sources = source_list(alloc, program, &needed)?;
    let kept = kept_words(alloc, &program.cells, &sources)?;
    let points = pointing(alloc, &program.cells)?;
    let plain = plain_pointers(alloc, &points)?;
    let constants = constants(alloc, &program.cells)?;
    let parts = site_parts(alloc, program)?;
    let loads = load_sites(alloc, program)?;
    let records = record_sites(alloc, program)?;
    let rows = rows_of(alloc, program, plan)?;
    let forms = forms_of(alloc, decls)?;
    let bits = pointer_bits(decls, program.sites.len());
    let sizes = sizes(plan, decls.len(), loads.len());
    Ok(PipelinePlan {
        program,
        plan,
        rows,
        forms,
        sizes,
        needed,
        parts,
        points,
        bits,
        sources,
        kept,
        constants,
        plain,
        loads,
        records,
    })
}

/// The pipeline plan of a program with these maps. Refused is one that has too many sites, or a number past the first row that is not 0.
pub fn pipeline_plan_of<'a>(
    alloc: Global,
    program: &'a CellProgram,
    plan: &'a RowPlan,
    decls: &[MapDecl],
) -> Result<PipelinePlan<'a>, PipelinePlanError>
    requires { IsForPipe (program_of program.now) plan.now decls.now }
    ensures pipeline_plan { IfOk result (IsPipelinePlanOf program.now plan.now decls.now) }
    ensures sites { most_sites < length program.now.sites.items → IsErrOf result error.TooManySites }
    ensures only_sites { IsErrOf result error.TooManySites → most_sites < length program.now.sites.items }
    ensures late { length program.now.sites.items ≤ most_sites → ¬ AreEarly (program_of program.now) (slice_index plan.now.rows) → IsErrOf result error.LateNumber }
    ensures only_late { IsErrOf result error.LateNumber → ¬ AreEarly (program_of program.now) (slice_index plan.now.rows) }
{
    if program.sites.len() > MOST_SITES {
        return Err(PipelinePlanError::TooManySites);
    }
    if !are_early(program, plan) {
        return Err(PipelinePlanError::LateNumber);
    }
    let pipeline_plan = worked_out(alloc, program, plan, decls)?;
    Ok(pipeline_plan)
}
