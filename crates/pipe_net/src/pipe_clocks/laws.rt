//! What holds of every design that is linked of the parts of a pipeline. Each function's contract is a law; it computes nothing.

ghost use Rattle.pipe_net.specs.PipeClocks.Following.{ClocksShow, ClocksFollow, BeginRelated};
ghost use Rattle.pipe_net.specs.PipeClocks.Standing.{ClocksGoOn, PipelinesStart, PipelinesFollow};
ghost use Rattle.pipe_net.specs.PipeClocks.Right.{ReadsAreRight, EmptyIsRight};

/// A pipeline whose parts store what a state of the machine says shows what the machine does, and where only what may come
/// does they store after the clock what its next state says; so they do before the first clock.
pub fn clocks_follow()
    ensures shows { ClocksShow }
    ensures clock { ClocksFollow }
    ensures first { BeginRelated }
{
    crate::pipe_forms::laws::all_are_declared();
    crate::pipe_forms::laws::pipelines_are_formed();
    crate::pipe_frames::laws::places_return();
    crate::pipe_frames::laws::frames_follow();
    crate::pipe_marks::laws::reloads_are_shown();
    crate::pipe_marks::laws::marks_follow();
    crate::pipe_turns::laws::host_is_shown();
    crate::pipe_turns::laws::action_is_shown();
    crate::pipe_turns::laws::action_follows();
    crate::pipe_places::laws::packets_are_shown();
    crate::pipe_places::laws::packets_follow();
    crate::pipe_maps::laws::tables_follow();
    crate::pipe_maps::laws::changes_are_shown();
    crate::pipe_maps::laws::host_is_served();
}

/// After a clock of a pipeline, in which only what may come does and what commits is right, what such a clock rests on stands again; so it does before the
/// first clock. So over every list of clocks a pipeline shows what the machine of the pipe does, and no divisor in it is 0; in a last one, too, in which something else comes.
pub fn clocks_go_on()
    ensures clock { ClocksGoOn }
    ensures first { PipelinesStart }
    ensures runs { PipelinesFollow }
{
    clocks_follow();
    crate::pipe_places::laws::entries_follow();
    crate::pipe_maps::laws::keys_stay();
    pipe_core::laws::in_order();
    pipe_core::laws::computed();
}

/// What commits is right where the machine is right and the host writes nothing, and in a clock without a packet inside, whatever the host does.
pub fn clocks_are_right()
    ensures reads { ReadsAreRight }
    ensures empty { EmptyIsRight }
{
    pipe_core::laws::right();
}
