//! What holds of layouts by pipeline plans. The function's contract is a law; it computes nothing.

ghost use Rattle.pipe_parts.specs.PipeDraft.Laid.{PipelinePlannedAreLaid, SitesAreAtPlaces};

/// A layout by a pipeline plan is laid out by the plan as the laws of places ask, and what stands after its places for sites shows them.
pub fn pipeline_planned_are_laid()
    ensures laid { PipelinePlannedAreLaid }
    ensures sites { SitesAreAtPlaces }
{
    pipe_net::pipe_places::laws::sites_at_places();
}
