//! What goes over at the ports of every design that follows a pipeline with maps. Each function's contract is a law; it computes nothing.

ghost use Rattle.pipe_runs.specs.PipePorts.Ports.{PortsShowClocks, PortsShowHistories};
ghost use Rattle.pipe_runs.specs.PipePorts.Patterns.{PatternsMayCome, PatternsGoOn};
ghost use Rattle.pipe_runs.specs.PipePorts.Answering.{RunsAreAnswers, PatternsAnswerInTurn};

/// What goes over at the ports of a design that follows the machine is what the machine takes and gives, in each clock and in all.
pub fn ports_show()
    ensures clock { PortsShowClocks }
    ensures histories { PortsShowHistories }
{
    cell_core::laws::values_fit();
    crate::pipe_answers::laws::runs_in_turn();
    pipe_core::host_runs::laws::reads_are_silent();
}

/// What a pattern offers may come, whatever the design has taken so far, so the design follows the machine in every clock.
pub fn patterns_may_come()
    ensures come { PatternsMayCome }
    ensures on { PatternsGoOn }
{
    ports_show();
}

/// Under every pattern packets are answered by their cell runs one after another on the maps that are loaded.
pub fn patterns_answer()
    ensures runs { RunsAreAnswers }
    ensures patterns { PatternsAnswerInTurn }
{
    patterns_may_come();
    pipe_core::laws::runs_rest();
    crate::pipe_answers::laws::runs_in_turn();
}
