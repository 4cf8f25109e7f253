//! What the cells and the plan of a program give to the pipe. Each function's contract is a law; it computes nothing.

ghost use Rattle.ehdl_build.specs.ProgramPlan.Pipelinable.{ProgramsArePipelinable};
ghost use Rattle.ehdl_build.specs.ProgramPlan.ReadCells.{ReadCellsAreFirst, AccessesAreAligned};
ghost use Rattle.ehdl_build.specs.ProgramPlan.Leading.{PointersLead, ReadsLead, SitesLead, RecordsLead};

/// Programs whose cells keep the law of cells and can be built, as those of `to_cells` do, are pipelinable by their plans, with as many slots as one likes.
pub fn pipelinable()
    ensures { ProgramsArePipelinable }
{
    hazard_core::cell_core::laws::have_values();
    hazard_core::cell_core::laws::rows_rise();
    operator_cells::held_cells::laws::rows_stand_behind();
}

/// Of a program that keeps the law of cells each site has at most one cell that says whether its key is there, a bit, and at most one that
/// has the bits of what it answers; accesses begin at multiples of their bytes.
pub fn reads_first()
    ensures cells { ReadCellsAreFirst }
    ensures aligned { AccessesAreAligned }
{}

/// Of such a program each access goes through a pointer into its own map, whatever the packet holds of its reads, on the path or not.
pub fn accesses_lead()
    ensures pointers { PointersLead }
    ensures reads { ReadsLead }
    ensures sites { SitesLead }
    ensures records { RecordsLead }
{
    hazard_core::cell_core::laws::have_values();
    hazard_core::cell_core::laws::rows_rise();
    hazard_core::table_laws::laws::founds_lead();
}
