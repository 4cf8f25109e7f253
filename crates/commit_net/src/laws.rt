//! What commits leave. Each function's contract is a law; it computes nothing.

ghost use Rattle.commit_net.specs.Laws.{CommitsOneSlot, CommitsOneValue, HashStores, ArrayStores};

/// A commit changes one slot of one table, and of an array the value there alone.
pub fn one_slot()
    ensures slot { CommitsOneSlot }
    ensures value { CommitsOneValue }
{}

/// In a clock in which an operation commits, with the parts that give the slot, the words there and what is asked, the block of a hash stores the table
/// that the commit leaves.
pub fn hash_stores<P>()
    ensures { HashStores P }
{}

/// So does that of an array.
pub fn array_stores<P>()
    ensures { ArrayStores P }
{}
