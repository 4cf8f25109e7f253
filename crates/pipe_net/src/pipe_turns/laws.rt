//! What holds of the parts for the host and of those that say which operation commits. Each function's contract is a law; it computes nothing.

ghost use Rattle.pipe_net.specs.PipeTurns.Hosting.{HostIsShown};
ghost use Rattle.pipe_net.specs.PipeTurns.Acting.{ActionIsShown, TargetsAreShown};
ghost use Rattle.pipe_net.specs.PipeTurns.Following.{ActionFollows, ActionBegins};

/// It is shown whether no frame is inside, whether the host is heard, and whether it writes.
pub fn host_is_shown()
    ensures { HostIsShown }
{
    turn_net::host_net::laws::writes::<crate::parts::Part>();
}

/// It is shown whether packets stay where they are, which operation commits and on which map; and what this operation writes, where it is a right one.
pub fn action_is_shown()
    ensures action { ActionIsShown }
    ensures targets { TargetsAreShown }
{
    turn_net::laws::records_alone();
}

/// By what the other parts say in a clock it is stored how far the packet at the commit place is, and which slots its updates took, as the machine's next
/// state says it; so it is before the first clock.
pub fn action_follows()
    ensures clock { ActionFollows }
    ensures first { ActionBegins }
{
    turn_net::laws::records_alone();
}
