//! What the cells and the plan of a program give to its pipeline. The function's contract is a law; it computes nothing.

ghost use Rattle.ehdl_build.specs.PipePrograms.Prepared.{ProgramsArePrepared};

/// Programs whose cells keep the law of cells and can be built, as those of `to_cells` do, are by their plans and their maps programs for which a pipeline is made, and each of
/// their accesses goes through a pointer into its own map. No number other than 0 stands past the first row.
pub fn programs_are_prepared()
    ensures { ProgramsArePrepared }
{
    crate::program_plan::laws::pipelinable();
    crate::program_plan::laws::reads_first();
    crate::program_plan::laws::accesses_lead();
}
