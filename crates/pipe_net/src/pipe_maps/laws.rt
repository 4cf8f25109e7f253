//! What holds of the parts of maps. Each function's contract is a law; it computes nothing.

ghost use Rattle.pipe_net.specs.PipeMaps.Tables.{TablesFollow, TablesBegin, OpenedAreFirst};
ghost use Rattle.pipe_net.specs.PipeMaps.Keys.{KeysFollow, KeysBegin};
ghost use Rattle.pipe_net.specs.PipeMaps.Saying.{ChangesAreShown, ValueIsShown, MapsLetWrite};

use crate::parts::Part;

/// By what the other parts say in a clock the maps store the tables of the machine's next state; before the first clock they store those of maps
/// without entries, as those are to which nothing is written.
pub fn tables_follow()
    ensures clock { TablesFollow }
    ensures first { TablesBegin }
    ensures opened { OpenedAreFirst }
{
    turn_net::host_net::laws::writes::<Part>();
    commit_net::map_block::laws::seen::<Part>();
    commit_net::laws::one_slot();
    turn_net::laws::records_alone();
}

/// It is shown of each map what the clock changes.
pub fn changes_are_shown()
    ensures { ChangesAreShown }
{
    turn_net::host_net::laws::writes::<Part>();
    commit_net::map_block::laws::seen::<Part>();
    turn_net::laws::records_alone();
}

/// It is shown what the host reads, and of each map whether the host may write the word that it names.
pub fn host_is_served()
    ensures reads { ValueIsShown }
    ensures writes { MapsLetWrite }
{
    turn_net::host_net::laws::reads::<Part>();
    commit_net::map_block::laws::seen::<Part>();
}

/// Slots of tables hold bytes of the declared lengths, and those of arrays their indexes as keys, after every clock in which what commits is right,
/// whatever the host writes; so they do when sound maps are loaded.
pub fn keys_stay()
    ensures clock { KeysFollow }
    ensures first { KeysBegin }
{
    commit_net::laws::one_slot();
    hazard_core::table_laws::laws::keep_bytes();
    hazard_core::table_laws::laws::loads_bytes();
    hazard_core::laws::loads_tables();
}
