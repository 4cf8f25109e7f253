//! What holds of the kinds that nodes bring, and of instructions that do nothing to a map. Each function's contract is a law; it computes nothing.

ghost use Rattle.edge_cells.specs.NodeCells.Carrying.{CarriesOperate};
ghost use Rattle.edge_cells.specs.NodeCells.Filling.{EdgesAreFilled, JumpsAreFilled};

/// Where no slot is unset before an instruction that leads on none is after it.
pub fn edges_are_filled()
    ensures { EdgesAreFilled }
{}

/// The same along the edges of a jump.
pub fn jumps_are_filled()
    ensures { JumpsAreFilled }
{}

/// The cells of an instruction that does nothing to a map operate with no site.
pub fn carries_operate()
    ensures { CarriesOperate }
{}
