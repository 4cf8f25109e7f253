//! What holds of the wires of well-formed designs. Each function's contract is a law; it computes nothing.

ghost use Rattle.design_rules.specs.SolvedWires.Laws.{ClocksSolveWires, WiresHaveOneSolution};

/// The values of wires in a clock are those of their right sides.
pub fn clocks_solve_wires()
    ensures { ClocksSolveWires }
{}

/// No other values are.
pub fn wires_have_one_solution()
    ensures { WiresHaveOneSolution }
{}
