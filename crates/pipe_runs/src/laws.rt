//! What holds of every design that follows the machine of a pipeline with maps. Each function's contract is a law; it computes nothing.

ghost use Rattle.pipe_runs.specs.Meeting.{FollowersMeet, PipelinesMeet};

/// A design that follows the machine over the loaded maps answers packets by their cell runs, in order, under every pattern and in the stated clocks, and then shows the host the maps that the last one left.
pub fn followers_meet()
    ensures { FollowersMeet }
{
    pipe_core::laws::in_order();
    pipe_core::laws::ends_in_time();
    pipe_core::laws::ends_without_conflicts();
    pipe_core::laws::line_rate();
    pipe_core::host_runs::laws::reads_are_silent();
    pipe_core::host_runs::laws::loads_fit();
    crate::pipe_answers::laws::loads_may_come();
    crate::pipe_answers::laws::runs_in_turn();
    crate::pipe_answers::laws::dumps_are_shown();
    crate::pipe_ports::laws::ports_show();
    crate::pipe_ports::laws::patterns_may_come();
    crate::pipe_ports::laws::patterns_answer();
}

/// So does every design that is linked of the parts of a pipeline, whatever maps are loaded.
pub fn pipelines_meet()
    ensures { PipelinesMeet }
{
    crate::pipe_loads::laws::loads_follow();
    followers_meet();
}
