//! Whether a chain of products stands in a clock of a design: a product, quotient or remainder in an operand of another, where each
//! wire is replaced by its right side.

mod design;
mod found;
mod statements;
mod trees;

pub use design::has_no_product_chains;
