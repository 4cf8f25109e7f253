//! What holds of the lists of all places. The function's contract is a law; it computes nothing.

ghost use Rattle.stage_net.specs.SiteTable.Staged.{StagesArePlaced, ListsAreFormed};

use hazard_core::cell_core::laws::rows_rise;
use row_net::laws::cells_are_placed;

/// What a place makes and holds is there where it is taken, with its pointers.
pub fn stages_are_placed()
    ensures placed { StagesArePlaced }
    ensures lists { ListsAreFormed }
{
    rows_rise();
    cells_are_placed();
}
