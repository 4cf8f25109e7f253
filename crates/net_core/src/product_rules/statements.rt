//! Products in the expressions of statements.

ghost use Rattle.std.specs.Prelude.{◌≡◌};
ghost use Rattle.net_core.specs.View.{tree_of, statement_of, statements_of};
ghost use Rattle.net_core.specs.ProductRules.Products as products;

use crate::product_rules::trees::in_tree;
use crate::tree::{Expr, Net, Stmt, Stmts};

/// Whether no product of an expression stands inside an operand of another.
pub fn is_flat(marks: &[bool], e: &Expr<Net>) -> bool
    ensures { result ≡ products.is_flat (products.made_by_product marks.now) (tree_of e.now) }
{
    in_tree(marks, e).apart
}

/// Whether that is so of each expression of a statement.
#[cycle(statement)]
pub fn statement_flat(marks: &[bool], stmt: &Stmt<Net>) -> bool
    ensures { result ≡ products.statement_flat (products.made_by_product marks.now) (statement_of stmt.now) }
{
    match stmt {
        Stmt::Block(more) => statements_flat(marks, more),
        Stmt::If(c, a) => is_flat(marks, c) && statement_flat(marks, a),
        Stmt::IfElse(c, a, b) => {
            is_flat(marks, c) & (statement_flat(marks, a) & statement_flat(marks, b))
        }
        Stmt::Set(_, e) => is_flat(marks, e),
        Stmt::Store(_, i, e) => is_flat(marks, i) && is_flat(marks, e),
    }
}

#[cycle(statement)]
fn statements_flat(marks: &[bool], stmts: &Stmts<Net>) -> bool
    ensures { result ≡ products.statements_flat (products.made_by_product marks.now) (statements_of stmts.now) }
{
    let mut left = stmts;
    while let Stmts::Then(a, more) = left {
        if !statement_flat(marks, a) {
            return false;
        }
        left = more;
    }
    true
}
