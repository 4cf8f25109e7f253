//! What holds of cells that wait for others. Each function's contract is a law; it computes nothing.

ghost use Rattle.operator_cells.specs.HeldCells.Reading.{RowsStandBehind};

/// No cell stands in an earlier row than one for which it waits, and in a later one if it is heavy.
pub fn rows_stand_behind()
    ensures { RowsStandBehind }
{}
