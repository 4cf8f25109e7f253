//! When no product of a linked design stands inside an operand of another, for any type of parts. The contract is a law; the
//! function computes nothing.

ghost use Rattle.block_core.specs.ProductBlocks.Apart.{LinkedHasNoProductChains};

/// A linked design has its products apart where each of its blocks has, by marks on its wires: an unmarked wire is made by no
/// product, and no product has an operand that is marked or in which a product stands.
pub fn linked_has_no_product_chains<P>()
    ensures { LinkedHasNoProductChains P }
{}
