//! What holds of every design that is linked of the parts of a pipeline. The function's contract is a law; it computes nothing.

ghost use Rattle.pipe_runs.specs.PipeLoads.Loaded.{PipelinesFollowLoaded, PipelinesShowLoaded};

/// Whatever blocks of these contracts are linked: through a load, and after it in every clock in which the host only reads, the design shows what the machine of the
/// pipe does, and no divisor in it is 0; and so it shows what the machine does in the clock behind, whatever beat is offered there.
pub fn loads_follow()
    ensures runs { PipelinesFollowLoaded }
    ensures next { PipelinesShowLoaded }
{
    pipe_net::pipe_clocks::laws::clocks_go_on();
    pipe_net::pipe_maps::laws::tables_follow();
    crate::pipe_answers::laws::loads_may_come();
    crate::pipe_answers::laws::designs_follow();
}
