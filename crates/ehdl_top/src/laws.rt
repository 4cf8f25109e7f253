//! What holds of what commands leave to each other. Each function's contract is a law; it computes nothing.

ghost use Rattle.ehdl_top.specs.PreparedLaws.{PreparedObjectsCompile};

/// What `prepare` writes compiles, and the text realizes the program that it was prepared from, though that is refused.
pub fn prepared_objects_compile()
    ensures { PreparedObjectsCompile }
{}
