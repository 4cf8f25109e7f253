//! When a design that is made of blocks is well formed, for any type of parts. The contract is a law; the function computes
//! nothing.

ghost use Rattle.block_core.specs.BlockForms.WellFormed.{LinkedIsWellFormed, NumbersAreNames};

/// A linked design is well formed where it is well typed, block by block, where the grammar can spell each of its trees, and
/// where its nets have names of their own.
pub fn linked_is_well_formed<P>()
    ensures { LinkedIsWellFormed P }
{}

/// The numbers that nets have by their places make such names, where there are fewer than 2 to the power 64 of a sort.
pub fn numbers_are_names<P>()
    ensures { NumbersAreNames P }
{}
