//! What holds of every design that is linked of the parts of a pipeline. Each function's contract is a law; it computes nothing.

ghost use Rattle.pipe_net.specs.PipeForms.Declared.{AllAreDeclared};
ghost use Rattle.pipe_net.specs.PipeForms.Forming.{PipelinesAreFormed, HaveNoProductChains};

/// What parts read of others is declared, with the widths that they take it to have.
pub fn all_are_declared()
    ensures { AllAreDeclared }
{}

/// Each wire of a pipeline stands after those that it reads, all of it is well typed, and the grammar can spell its trees. No product stands inside an operand
/// of another.
pub fn pipelines_are_formed()
    ensures formed { PipelinesAreFormed }
    ensures apart { HaveNoProductChains }
{}
