//! Tables that there are. The function's contract is a law; it computes nothing.

ghost use Rattle.turn_net.specs.TargetNet.Tables.{TablesAreThere};

/// A map within the limits may have a table, whichever its number.
pub fn tables_are_there()
    ensures { TablesAreThere }
{
    cell_nets::cell_core::xdp_state::xdp_maps::laws::keeps_over();
    hazard_core::laws::loads_tables();
}
