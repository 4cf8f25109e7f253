//! What holds of the program. Each function's contract is a law; it computes nothing.

ghost use Rattle.flow_demo.specs.DemoGraph.Size.{DemoIsAccepted};

/// The program is accepted, and its graph has 29 nodes.
pub fn demo_is_accepted()
    ensures { DemoIsAccepted }
{}
