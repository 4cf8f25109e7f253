//! What holds over all lists of clocks of the machine. Each function's contract is a law; it computes nothing.

ghost use Rattle.pipe_core.specs.History.{KeepsOrder, IsAlwaysInOrder};
ghost use Rattle.pipe_core.specs.Computed.{KeepsComputed, IsAlwaysComputed};
ghost use Rattle.pipe_core.specs.Drive.{EndsInTime, EndsLate};
ghost use Rattle.pipe_core.specs.Forward.{EndsForward};
ghost use Rattle.pipe_core.specs.Apart.{RunsElsewhere, RunsComplete, InTurnToo, CommitsAreWrites, LateCommitsAreWrites, EndsUnsent};
ghost use Rattle.pipe_core.specs.Meeting.{TouchesWhatIsRead, ChangesAreWritten};
ghost use Rattle.pipe_core.specs.ChangeCauses.{KeepsChangeCauses, BeginsChangeCauses, ReadsNothingWritten};
ghost use Rattle.pipe_core.specs.Found.{KeepsFound, BeginsFound};
ghost use Rattle.pipe_core.specs.Unconflicting.{NothingMustReload, StaysForward, EndsWithoutConflicts};
ghost use Rattle.pipe_core.specs.LineRate.{DrivesAtLineRate, FullDriveAtLineRate, LateDriveAtLineRate, GivesFirst, LateFirstAtLineRate};
ghost use Rattle.pipe_core.specs.Sending.{AlwaysSendsBack};
ghost use Rattle.pipe_core.specs.Agreement.{EnteringAgrees, MarkingAgrees};
ghost use Rattle.pipe_core.specs.Agreed.{KeepsAgreed, PathsAreMade};
ghost use Rattle.pipe_core.specs.Right.{ActionsAreRight, KeepsRight, IsAlwaysRight};
ghost use Rattle.pipe_core.specs.SequentialOrder.{KeepsSequential, RunsInTurn, FinalMaps};
ghost use Rattle.pipe_core.specs.Prefix.{SequentialRunsAhead, IsAlwaysAhead, WholeWhereUnmarked, CommittersHoldRuns, GuardsRunAhead};
ghost use Rattle.pipe_core.specs.Marked.{KeepsMarked, AreAlwaysMarked};

/// The pipe holds frames and answers in the order in which the frames came, and each answer is that of its own packet.
pub fn in_order()
    ensures clock { KeepsOrder }
    ensures always { IsAlwaysInOrder }
{}

/// Each cell that is no read, of the rows that a packet has taken in, is its operator's on the packet's own cells.
pub fn computed()
    ensures clock { KeepsComputed }
    ensures always { IsAlwaysComputed }
{
    hazard_core::cell_core::laws::rows_rise();
}

/// A full drive in which no packet is ever sent back ends so too, with one clock more for each operation that is committed.
pub fn ends_forward()
    ensures { EndsForward }
{}

/// A cell run rests on what it reads of the maps, and on its reads off the path, which may be anything.
pub fn runs_rest()
    ensures elsewhere { RunsElsewhere }
    ensures complete { RunsComplete }
{
    hazard_core::cell_core::laws::values_keep();
}

/// What a packet holds of the maps stays what it would find now, but for reads that are marked or off the path: where it takes in
/// a row, and where the tables change.
pub fn agreement()
    ensures entering { EnteringAgrees }
    ensures marking { MarkingAgrees }
{
    hazard_core::cell_core::laws::rows_rise();
    hazard_core::laws::reads_keep();
    hazard_core::laws::unmoved();
}

/// Where a packet has a mark whose guard is known as 1, it and all younger ones go back, and no other; none is injected then.
pub fn sends_back()
    ensures { AlwaysSendsBack }
{}

/// Over every list of clocks a mark stands exactly where the guard is not known as 0 and the packet has seen, since it was injected, a
/// change that touched what it had read.
pub fn marks()
    ensures clock { KeepsMarked }
    ensures always { AreAlwaysMarked }
{}

/// Packets hold of the maps what these hold, where no mark stands and the path is not known to be another: of those of now before the
/// commit place, and from there on of those before the packet's own operations. What stays at the commit place has no mark.
pub fn agreed()
    ensures clock { KeepsAgreed }
    ensures path { PathsAreMade }
{
    agreement();
    hazard_core::laws::changes();
}

/// Over every list of clocks with a silent host the tables are tables of their declarations, packets agree with those of their places, and
/// what is committed is right.
pub fn right()
    ensures action { ActionsAreRight }
    ensures clock { KeepsRight }
    ensures always { IsAlwaysRight }
{
    agreed();
    hazard_core::laws::in_turn();
    hazard_core::laws::sees_earlier();
    hazard_core::laws::loads_tables();
}

/// Packets overlap, and over every list of clocks with a silent host those that left are cell runs one after another, each on the maps that
/// the one before it left; when no packet is inside the tables stand for the maps that the last one left.
pub fn runs_in_turn()
    ensures clock { KeepsSequential }
    ensures runs { RunsInTurn }
    ensures last { FinalMaps }
{
    hazard_core::cell_core::laws::rows_rise();
    right();
    hazard_core::laws::maps_in_turn();
    hazard_core::laws::in_turn();
    hazard_core::laws::sees_earlier();
    hazard_core::laws::loads_tables();
    hazard_core::laws::tables_stand();
}

/// Over every list of clocks with a silent host what a packet holds is right up to its first marked read: there is a run of it, on the maps as they
/// are and from the commit place on as they were before its own operations, with which it agrees in each cell that it holds up to the first read of
/// a marked site on the run's path. Where there is none it agrees in all, as it does from the commit place on. Up to that read its guards too are
/// the run's.
pub fn ahead()
    ensures now { SequentialRunsAhead }
    ensures always { IsAlwaysAhead }
    ensures whole { WholeWhereUnmarked }
    ensures commits { CommittersHoldRuns }
    ensures guards { GuardsRunAhead }
{
    hazard_core::cell_core::laws::rows_rise();
    right();
    runs_in_turn();
    hazard_core::laws::reads_keep();
    hazard_core::laws::sees_earlier();
    hazard_core::laws::maps_in_turn();
    hazard_core::laws::loads_tables();
    hazard_core::laws::tables_stand();
}

/// With operations on maps, and whatever packets are sent back, the full drive of frames ends in time; so does one that begins late.
pub fn ends_in_time()
    ensures full { EndsInTime }
    ensures late { EndsLate }
{
    right();
    hazard_core::laws::loads_tables();
}

/// In a full drive no more operations are committed than the runs of its frames write, so where nothing is sent back it ends so too.
pub fn commits()
    ensures writes { CommitsAreWrites }
    ensures late { LateCommitsAreWrites }
    ensures unsent { EndsUnsent }
{
    runs_in_turn();
    right();
    computed();
    ends_in_time();
    ends_forward();
    hazard_core::laws::loads_tables();
    hazard_core::laws::tables_stand();
}

/// Where no runs of frames conflict, a packet's run on maps in the midst of its forerunners' operations is its run in turn too.
pub fn in_turn_too()
    ensures { InTurnToo }
{
    runs_rest();
    hazard_core::cell_core::laws::values_keep();
}

/// A change touches a read on the path only where what it changes and what is read meet; and what a commit changes its operation writes.
pub fn meeting()
    ensures touches { TouchesWhatIsRead }
    ensures written { ChangesAreWritten }
{
    hazard_core::laws::in_turn();
    hazard_core::laws::maps_in_turn();
}

/// While nothing is sent back each change that a packet has seen was made by a packet shortly before it, which wrote what the change changed.
pub fn change_causes()
    ensures clock { KeepsChangeCauses }
    ensures begins { BeginsChangeCauses }
{
    meeting();
    hazard_core::laws::in_turn();
    hazard_core::laws::sees_earlier();
}

/// Where no runs of the frames conflict, packets inside read nothing that packets shortly before them have written.
pub fn unread()
    ensures { ReadsNothingWritten }
{
    ahead();
    runs_rest();
    in_turn_too();
    hazard_core::laws::sees_earlier();
    hazard_core::laws::maps_in_turn();
    hazard_core::cell_core::laws::values_keep();
}

/// What an update found that a packet holds stays what it finds now, but where the packet has seen its key come or go.
pub fn found()
    ensures clock { KeepsFound }
    ensures begins { BeginsFound }
{
    right();
    hazard_core::laws::changes();
    hazard_core::laws::reads_keep();
}

/// Where no runs of the frames conflict, and nothing was sent back so far, no packet must reload: nothing is sent back.
pub fn nothing_must_reload()
    ensures { NothingMustReload }
{
    meeting();
    unread();
    hazard_core::cell_core::laws::rows_rise();
    hazard_core::laws::reads_keep();
    hazard_core::laws::sees_earlier();
    hazard_core::laws::maps_in_turn();
}

/// Where no runs of its frames conflict, nothing is sent back in a full drive, so it ends in as many clocks as one that goes forward.
pub fn ends_without_conflicts()
    ensures forward { StaysForward }
    ensures ends { EndsWithoutConflicts }
{
    runs_in_turn();
    right();
    computed();
    change_causes();
    found();
    nothing_must_reload();
    commits();
    hazard_core::laws::loads_tables();
    hazard_core::laws::tables_stand();
}

/// A beat comes and one goes at each clock: beside these a drive takes the longest frame and the places once, a clock for each operation that is committed, and those of
/// the way to the commit place for each clock that sends back. It may begin at any time, and of frames without conflicts nothing is sent back.
pub fn line_rate()
    ensures drives { DrivesAtLineRate }
    ensures full { FullDriveAtLineRate }
    ensures late { LateDriveAtLineRate }
    ensures first { GivesFirst }
    ensures late_first { LateFirstAtLineRate }
{
    ends_without_conflicts();
    commits();
}
