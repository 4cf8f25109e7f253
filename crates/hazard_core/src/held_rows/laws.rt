//! What holds of the rows that a packet takes in. Each function's contract is a law; it computes nothing.

ghost use Rattle.hazard_core.specs.HeldRows.Fits.{BeginsFit, RowsFit, MoreFit};
ghost use Rattle.hazard_core.specs.HeldRows.Made.{RowIsMade, RowKeeps};

/// A packet before its first row fits, and so does one with a row more; what fits fits where there is room for more slots.
pub fn rows_fit()
    ensures begins { BeginsFit }
    ensures rows { RowsFit }
    ensures more { MoreFit }
{}

/// A packet that takes in a row holds the cells of that row as they are made from what it holds then, and all others as before.
pub fn row_is_made()
    ensures made { RowIsMade }
    ensures keeps { RowKeeps }
{
    crate::laws::reads_keep();
}
