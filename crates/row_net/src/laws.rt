//! What holds of the lists of all places. The function's contract is a law; it computes nothing.

ghost use Rattle.row_net.specs.Lists.{CellsArePlaced};

use cell_nets::cell_core::laws::rows_rise;

/// What a place makes and carries is there where it is taken.
pub fn cells_are_placed()
    ensures { CellsArePlaced }
{
    rows_rise();
}
