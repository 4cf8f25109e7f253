//! What holds of the parts of maps. Each function's contract is a law; it computes nothing.

ghost use Rattle.pipe_design.specs.MapParts.Laws.{PartsAreOfMaps, ChangesAreForMarks};

use pipe_parts::pipe_draft::laws::pipeline_planned_are_laid;

/// In a pipeline that is laid out by the pipeline plan the parts are those of its maps.
pub fn parts_are_of_maps()
    ensures { PartsAreOfMaps }
{
    pipeline_planned_are_laid();
}

/// What stands for the changes of maps has the operands that marks ask.
pub fn changes_are_for_marks()
    ensures { ChangesAreForMarks }
{}
