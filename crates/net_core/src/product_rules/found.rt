//! What is found of products in a tree.

ghost use Rattle.std.specs.Prelude.{◌≡◌, ◌&&◌, ◌||◌, if◌then◌else◌, true};
ghost use Rattle.std.proofs.Common.{not};
ghost use Rattle.net_core.specs.ProductRules.Products as products;

use crate::tree::Op;

/// What is found in a tree, or in several.
#[derive(Clone, Copy, Debug, PartialEq, Eq)]
pub struct Found {
    /// A product stands there.
    pub product: bool,
    /// No product stands inside an operand of another.
    pub apart: bool,
}

/// What is found where no product stands.
pub const NO_PRODUCT: Found = Found {
    product: false,
    apart: true,
};

/// What is found in both of two places.
pub fn both(a: Found, b: Found) -> Found
    ensures product { result.product ≡ (a.product || b.product) }
    ensures apart { result.apart ≡ (a.apart && b.apart) }
{
    Found {
        product: a.product || b.product,
        apart: a.apart && b.apart,
    }
}

/// What is found in an operator with its operands, from what is found in these.
pub fn under(op: Op, operands: Found) -> Found
    ensures product { result.product ≡ (products.is_product op || operands.product) }
    ensures apart { result.apart ≡ ((if products.is_product op then not operands.product else true) && operands.apart) }
{
    match op {
        Op::Mul => Found {
            product: true,
            apart: !operands.product && operands.apart,
        },
        _ => operands,
    }
}
