//! Products in expressions and in the right sides of wires, where marks say in which wires one stands.

ghost use Rattle.std.specs.Prelude.{◌≡◌, true};
ghost use Rattle.net_core.specs.View.{tree_of, trees_of, right_of};
ghost use Rattle.net_core.specs.ProductRules.Products as products;

use crate::product_rules::found::{Found, NO_PRODUCT, both, under};
use crate::tree::{Expr, Net, Parts, Right};

/// Whether a product makes a net's value.
fn made_by_product(marks: &[bool], net: Net) -> bool
    ensures { result ≡ products.made_by_product marks.now net }
{
    match net {
        Net::Wire(k) => match marks.get(k as usize) {
            Some(mark) => *mark,
            None => false,
        },
        Net::Port(_) | Net::Register(_) | Net::Memory(_) => false,
    }
}

/// What is found where a net is read.
fn in_net(marks: &[bool], net: Net) -> Found
    ensures product { result.product ≡ products.made_by_product marks.now net }
    ensures apart { result.apart ≡ true }
{
    Found {
        product: made_by_product(marks, net),
        apart: true,
    }
}

/// What is found in an expression.
#[cycle(tree)]
pub fn in_tree(marks: &[bool], e: &Expr<Net>) -> Found
    ensures product { result.product ≡ products.has_product (products.made_by_product marks.now) (tree_of e.now) }
    ensures apart { result.apart ≡ products.is_flat (products.made_by_product marks.now) (tree_of e.now) }
{
    match e {
        Expr::Const(_) => NO_PRODUCT,
        Expr::Read(n) => in_net(marks, *n),
        Expr::Bit(n, _) => in_net(marks, *n),
        Expr::PartSelect(n, _, _) => in_net(marks, *n),
        Expr::MemoryWord(_, i) => in_tree(marks, i),
        Expr::Unary(_, a) => in_tree(marks, a),
        Expr::Binary(op, a, b) => {
            let left = in_tree(marks, a);
            let right = in_tree(marks, b);
            under(*op, both(left, right))
        }
        Expr::Conditional(c, a, b) => {
            let condition = in_tree(marks, c);
            let first = in_tree(marks, a);
            let second = in_tree(marks, b);
            both(condition, both(first, second))
        }
        Expr::Concatenation(parts) => in_parts(marks, parts),
    }
}

/// What is found in the parts of a concatenation.
#[cycle(tree)]
fn in_parts(marks: &[bool], parts: &Parts<Net>) -> Found
    ensures product { result.product ≡ products.parts_product (products.made_by_product marks.now) (trees_of parts.now) }
    ensures apart { result.apart ≡ products.parts_flat (products.made_by_product marks.now) (trees_of parts.now) }
{
    let mut found = NO_PRODUCT;
    let mut left = parts;
    loop {
        match left {
            Parts::Last(a) => return both(found, in_tree(marks, a)),
            Parts::More(a, more) => {
                found = both(found, in_tree(marks, a));
                left = more;
            }
        }
    }
}

/// What is found in the right side of a wire. A quotient and a remainder are products too.
pub fn in_right(marks: &[bool], right: &Right<Net>) -> Found
    ensures product { result.product ≡ products.right_product (products.made_by_product marks.now) (right_of right.now) }
    ensures apart { result.apart ≡ products.right_flat (products.made_by_product marks.now) (right_of right.now) }
{
    match right {
        Right::Plain(e) => in_tree(marks, e),
        Right::Quotient(a, b) | Right::Remainder(a, b) => Found {
            product: true,
            apart: !(made_by_product(marks, *a) || made_by_product(marks, *b)),
        },
    }
}
