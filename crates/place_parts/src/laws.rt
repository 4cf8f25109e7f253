//! What holds of the parts of places. The function's contract is a law; it computes nothing.

ghost use Rattle.place_parts.specs.Laws.{PartsAreOfPlaces};

use pipe_parts::pipe_draft::laws::pipeline_planned_are_laid;
use stage_net::site_table::laws::stages_are_placed;

/// In a pipeline that is laid out by the same pipeline plan they are the parts of its places.
pub fn parts_are_of_places()
    ensures { PartsAreOfPlaces }
{
    pipeline_planned_are_laid();
    stages_are_placed();
}
