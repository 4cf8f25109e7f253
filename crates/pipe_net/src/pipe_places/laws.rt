//! What holds of the places. Each function's contract is a law; it computes nothing.

ghost use Rattle.pipe_net.specs.PipePlaces.Shown.{PacketsAreShown, RegistersFit, AnswersAreShown};
ghost use Rattle.pipe_net.specs.PipePlaces.Sites.{AtPlaces};
ghost use Rattle.pipe_net.specs.PipePlaces.Following.{PacketsFollow, PacketsBegin};
ghost use Rattle.pipe_net.specs.PipePlaces.Entries.{EntriesFollow, EntriesBegin, EntriesServe};

/// The registers of places show what their packets hold, and after the last one it is shown what its packet answers.
pub fn packets_are_shown()
    ensures held { PacketsAreShown }
    ensures fit { RegistersFit }
    ensures answers { AnswersAreShown }
{}

/// The operands of sites that the tables after a place give show what its packet holds.
pub fn sites_at_places()
    ensures { AtPlaces }
{
    stage_net::site_table::laws::stages_are_placed();
}

/// By what the other parts say in a clock the places hold after it what the machine's next state says; so they do before the first clock.
pub fn packets_follow()
    ensures clock { PacketsFollow }
    ensures first { PacketsBegin }
{
    stage_net::site_table::laws::stages_are_placed();
    hazard_core::cell_core::laws::rows_rise();
    hazard_core::cell_core::laws::have_values();
    hazard_core::cell_core::laws::divisors_are_some();
    hazard_core::held_rows::laws::rows_fit();
    hazard_core::held_rows::laws::row_is_made();
    pipe_core::laws::computed();
}

/// Whatever clocks do, what packets found of keys leads into the maps of sites, and copies and joins pass it on. So where accesses go through pointers into their own maps,
/// those of packets go through pointers to slots that there are.
pub fn entries_follow()
    ensures clock { EntriesFollow }
    ensures first { EntriesBegin }
    ensures serve { EntriesServe }
{
    hazard_core::cell_core::laws::rows_rise();
    hazard_core::held_rows::laws::rows_fit();
    hazard_core::held_rows::laws::row_is_made();
    hazard_core::table_laws::laws::keep_slots();
    hazard_core::table_laws::laws::founds_lead();
}
