//! What holds of every design that is made of blocks, for any type of parts. Each function's contract is a law; it
//! computes nothing.

ghost use Rattle.block_core.specs.Formed.{LinkedIsTyped};
ghost use Rattle.block_core.specs.Law.{Linked, StartsAsParts, SizesStay};

/// A clock of a linked design is, part by part, the part's own statement on what the part stores, in an environment where
/// each wire of each part has the value of its right side. Outputs show what they are assigned, and no clock stops in which
/// no part's divisor is 0.
pub fn linked<P>()
    ensures { Linked P }
{}

/// A linked design first stores what its blocks do.
pub fn starts_as_parts<P>()
    ensures { StartsAsParts P }
{}

/// What a part stores has as many registers and memories as its block.
pub fn sizes_stay<N>()
    ensures { SizesStay N }
{}

/// A linked design is well typed where each of its blocks is, by the widths of the nets that it names, and where wires stand
/// in order.
pub fn linked_is_typed<P>()
    ensures { LinkedIsTyped P }
{}
