//! What holds of reads and changes. Each function's contract is a law; it computes nothing.

ghost use Rattle.hazard_core.specs.Standing.{TablesStand};
ghost use Rattle.hazard_core.specs.Keeping.{ReadsKeep};
ghost use Rattle.hazard_core.specs.Tabled.{LoadsTables};
ghost use Rattle.hazard_core.specs.Replay.{CommitsInTurn, MapsInTurn, ReadsInTurn, SeesEarlier};
ghost use Rattle.hazard_core.specs.Changes.{Unmoved, CommitsChange, HostChanges};

/// A read that a change does not touch finds what it found before.
pub fn unmoved()
    ensures { Unmoved }
{}

/// A commit, and what the host writes while packets are inside, change the tables as their changes say.
pub fn changes()
    ensures commits { CommitsChange }
    ensures host { HostChanges }
{}

/// A read finds and answers the same in packets that hold the same of earlier rows.
pub fn reads_keep()
    ensures { ReadsKeep }
{}

/// The tables that a load leaves stand for the maps that were loaded.
pub fn tables_stand()
    ensures { TablesStand }
{
    xdp_maps::laws::index_laws();
}

/// Of a packet that holds on its path what it finds on the tables, the operations, committed one after another, each write a slot of their
/// own key, and leave tables.
pub fn in_turn()
    ensures { CommitsInTurn }
{
    xdp_maps::laws::index_laws();
}

/// A read that has after it each earlier operation of its map that writes finds what it finds over all of them.
pub fn sees_earlier()
    ensures { SeesEarlier }
{}

/// What a load leaves are tables of the declarations: as long as the capacity, with no key twice.
pub fn loads_tables()
    ensures { LoadsTables }
{
    xdp_maps::laws::index_laws();
}

/// The operations of such a packet leave the tables of the maps that its sites leave, one after another, and each read on its path is what
/// the read of its site finds on the maps before it.
pub fn maps_in_turn()
    ensures maps { MapsInTurn }
    ensures reads { ReadsInTurn }
{
    xdp_maps::laws::update_laws();
    xdp_maps::laws::delete_laws();
    xdp_maps::laws::entry_laws();
    xdp_maps::laws::index_laws();
}
