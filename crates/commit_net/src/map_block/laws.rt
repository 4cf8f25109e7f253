//! What holds of the parts of a map. Each function's contract is a law; it computes nothing.

ghost use Rattle.commit_net.specs.MapBlock.Laws.{SeesParts, ArraysAreMaps, HashesAreMaps};

use crate::laws::{array_stores, hash_stores};

/// In a clock of a design that has the parts of a map, their wires have the values of their right sides, and the map sees what it stores.
pub fn seen<P>()
    ensures { SeesParts P }
{}

/// Blocks of an array that keep their contracts, each by the nets of the others, are those of a map.
pub fn arrays<P>()
    ensures { ArraysAreMaps P }
{
    array_stores::<P>();
}

/// So are those of a hash.
pub fn hashes<P>()
    ensures { HashesAreMaps P }
{
    hash_stores::<P>();
}
