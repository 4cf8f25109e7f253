//! What holds of covers. Each function's contract is a law; it computes nothing.

ghost use Rattle.cover_core.specs.Laws.{CoversKeepRuns};

/// A program that covers another one, and unfolds, has its runs: each packet, over all maps of the declarations, comes to one end by both. So
/// the other one is never stuck.
pub fn covers_keep_runs()
    ensures { CoversKeepRuns }
{
    unfold_core::laws::runs_are_sound();
    unfold_core::laws::nodes_have_links();
    kind_core::laws::steps_are_sound();
    kind_core::laws::conditions_are_sound();
    kind_core::laws::start_is_described();
    xdp_machine::laws::steps_change_only();
    xdp_machine::laws::steps_keep_ranges();
}
