//! What holds of the clocks of a pipeline's machine. Each function's contract is a law; it computes nothing.

ghost use Rattle.pipe_runs.specs.PipeAnswers.Going.{RightActions, GoOn, BeginGoing, RunsAreRight};
ghost use Rattle.pipe_runs.specs.PipeAnswers.Loading.{EmptyRunsAreRight, LoadedRunsAreRight};
ghost use Rattle.pipe_runs.specs.PipeAnswers.Coming.{HostMayCome, LoadsMayCome, OpenedAreSound};
ghost use Rattle.pipe_runs.specs.PipeAnswers.Following.{DesignsFollow, DesignsShow};
ghost use Rattle.pipe_runs.specs.PipeAnswers.Runs.{ReadsRunInTurn, LoadsRunInTurn};
ghost use Rattle.pipe_runs.specs.PipeAnswers.Dumps.{RunsGoOn, DumpsAreShown};

/// While the host writes nothing the tables are tables of their declarations, whose slots hold bytes of the declared lengths, and what commits is right: in every
/// clock from maps that are loaded on.
pub fn reads_are_right()
    ensures actions { RightActions }
    ensures clock { GoOn }
    ensures first { BeginGoing }
    ensures runs { RunsAreRight }
{
    pipe_core::laws::in_order();
    pipe_core::laws::right();
    pipe_net::pipe_maps::laws::keys_stay();
    pipe_core::host_runs::laws::reads_are_silent();
}

/// While no beat is offered no packet is inside, whatever the host writes. So all clocks are right in which maps are loaded, and those after them in which the
/// host only reads.
pub fn loads_are_right()
    ensures empty { EmptyRunsAreRight }
    ensures runs { LoadedRunsAreRight }
{
    reads_are_right();
    pipe_core::laws::in_order();
    pipe_core::host_runs::laws::loads_maps();
    pipe_core::host_runs::laws::loads_fit();
}

/// What a host writes in a load may come, in whatever clock; and the maps before it hold what their declarations allow.
pub fn loads_may_come()
    ensures host { HostMayCome }
    ensures runs { LoadsMayCome }
    ensures opened { OpenedAreSound }
{
    pipe_core::host_runs::laws::loads_maps();
    pipe_core::host_runs::laws::loads_fit();
    cell_core::xdp_state::xdp_maps::laws::keeps_over();
}

/// So a design that shows what the machine does wherever only what may come does and what commits is right shows it in every clock of a load, and of a run after it
/// in which the host only reads: there what the machine over the loaded maps does. No divisor is 0 in any of these clocks. In the clock after them it shows what the
/// machine does, too, whatever beat is offered there.
pub fn designs_follow()
    ensures runs { DesignsFollow }
    ensures next { DesignsShow }
{
    loads_are_right();
    loads_may_come();
    pipe_core::host_runs::laws::loads_maps();
}

/// While the host writes nothing, packets that leave are cell runs one after another on the loaded maps, and after the last one the tables stand for the maps that it left.
pub fn runs_in_turn()
    ensures reads { ReadsRunInTurn }
    ensures loads { LoadsRunInTurn }
{
    pipe_core::laws::in_order();
    pipe_core::laws::runs_in_turn();
    pipe_core::host_runs::laws::reads_are_silent();
    pipe_core::host_runs::laws::loads_maps();
}

/// Where no frame is inside, a design that follows the machine shows the host in a dump what the tables stand for.
pub fn dumps_are_shown()
    ensures runs { RunsGoOn }
    ensures dumps { DumpsAreShown }
{
    reads_are_right();
    pipe_core::host_runs::laws::dumps_maps();
}
