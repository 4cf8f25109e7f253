//! What holds of the parts of marks. Each function's contract is a law; it computes nothing.

ghost use Rattle.pipe_net.specs.PipeMarks.Following.{ReloadsAreShown, MarksFollow, MarksBegin};

/// It is shown which packets must reload.
pub fn reloads_are_shown()
    ensures { ReloadsAreShown }
{
    read_net::mark_net::laws::reload_of_reads();
}

/// By what the other parts say in a clock the parts of marks store what the machine's next state says; so they do before the first clock.
pub fn marks_follow()
    ensures clock { MarksFollow }
    ensures first { MarksBegin }
{
    read_net::mark_net::laws::entering();
    read_net::mark_net::laws::marking();
}
