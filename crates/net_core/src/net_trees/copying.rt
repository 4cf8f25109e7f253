//! Copies of trees.

ghost use Rattle.std.specs.Prelude.{◌≡◌, IfOk};
ghost use Rattle.net_core.specs.View.{tree_of, trees_of};

use crate::build::{self, binary, conditional, memory_word, unary};
use crate::tree::{Expr, Net, Parts};
use std::alloc::{AllocError, Global};

/// The same expression.
#[cycle(copies)]
pub fn copied(alloc: Global, e: &Expr<Net>) -> Result<Expr<Net>, AllocError>
    ensures { IfOk result (λ r. tree_of r ≡ tree_of e.now) }
{
    match e {
        Expr::Const(word) => Ok(Expr::Const(*word)),
        Expr::Read(n) => Ok(Expr::Read(*n)),
        Expr::Bit(n, bit) => Ok(Expr::Bit(*n, *bit)),
        Expr::PartSelect(n, high, low) => Ok(Expr::PartSelect(*n, *high, *low)),
        Expr::MemoryWord(m, i) => {
            let index = copied(alloc, i)?;
            memory_word(alloc, *m, index)
        }
        Expr::Unary(op, a) => {
            let a = copied(alloc, a)?;
            unary(alloc, *op, a)
        }
        Expr::Binary(op, a, b) => {
            let a = copied(alloc, a)?;
            let b = copied(alloc, b)?;
            binary(alloc, *op, a, b)
        }
        Expr::Conditional(c, a, b) => {
            let c = copied(alloc, c)?;
            let a = copied(alloc, a)?;
            let b = copied(alloc, b)?;
            conditional(alloc, c, a, b)
        }
        Expr::Concatenation(parts) => {
            let parts = copied_parts(alloc, parts)?;
            Ok(Expr::Concatenation(Box::new(alloc, parts)?))
        }
    }
}

/// The same parts.
// Without a recursion over the parts: there may be any number.
#[cycle(copies)]
pub fn copied_parts(alloc: Global, parts: &Parts<Net>) -> Result<Parts<Net>, AllocError>
    ensures { IfOk result (λ r. trees_of r ≡ trees_of parts.now) }
{
    let mut prefix = Vec::new(alloc);
    let mut left = parts;
    while let Parts::More(part, more) = left {
        prefix.push(copied(alloc, part)?)?;
        left = more;
    }
    match left {
        Parts::Last(last) => {
            let last = copied(alloc, last)?;
            build::parts(alloc, prefix, last)
        }
        Parts::More(..) => unreachable!(),
    }
}
