//! What holds of the parts of actions. The function's contract is a law; it computes nothing.

ghost use Rattle.pipe_parts.specs.TurnParts.Laws.{PartsAreOfActions};

use crate::pipe_draft::laws::pipeline_planned_are_laid;

/// In a pipeline by the pipeline plan that has these blocks they are its parts of actions.
pub fn parts_are_of_actions()
    ensures { PartsAreOfActions }
{
    pipeline_planned_are_laid();
}
