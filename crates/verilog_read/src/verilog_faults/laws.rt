//! What holds of every first fault. Each function's contract is a law; it computes nothing.

ghost use Rattle.verilog_read.specs.VerilogFaults.Faults.{ExpressionsHaveFaultOfFront, RightSidesHaveFaultOfFront, StatementsHaveFaultOfFront, DesignsHaveFaultOfFront, TextsShareFirstError};

/// The first fault of an expression is decided by what stands up to it.
pub fn expressions_have_fault_of_front()
    ensures { ExpressionsHaveFaultOfFront }
{}

/// The first fault of the right side of a wire is decided by what stands up to it.
pub fn right_sides_have_fault_of_front()
    ensures { RightSidesHaveFaultOfFront }
{}

/// The first fault of a statement is decided by what stands up to it.
pub fn statements_have_fault_of_front()
    ensures { StatementsHaveFaultOfFront }
{}

/// The first fault of a design is decided by what stands up to it.
pub fn designs_have_fault_of_front()
    ensures { DesignsHaveFaultOfFront }
{}

/// Two texts whose tokens agree up to the first error of one, and as far after it as its code may look, have the same error at the
/// same token; and no such text spells a design.
pub fn texts_share_first_error()
    ensures { TextsShareFirstError }
{}
