//! Whether what a tree reads stands before it.

ghost use Rattle.std.specs.Prelude.{◌≡◌};
ghost use Rattle.net_core.specs.View.{netlist_of, tree_of, trees_of, right_of, statement_of, statements_of};
ghost use Rattle.design_rules.specs.FormedSyntax.{trees_pass, all_trees_pass};
ghost use Rattle.design_rules.specs.FormedScope as scope;

use crate::formed::scope::{is_value, is_words};
use net_core::design::Design;
use net_core::tree::{Expr, Net, Parts, Right, Stmt, Stmts};

/// Whether what an expression reads is there, where so many wires stand before.
#[cycle(reads)]
pub fn reads_known(design: &Design, before: usize, e: &Expr<Net>) -> bool
    ensures { result ≡ scope.reads_known (scope.sorts (netlist_of design.now) before) (tree_of e.now) }
{
    match e {
        Expr::Const(_) => true,
        Expr::Read(n) => is_value(design, before, *n),
        Expr::Bit(n, _) => is_value(design, before, *n),
        Expr::PartSelect(n, _, _) => is_value(design, before, *n),
        Expr::MemoryWord(m, i) => is_words(design, *m) && reads_known(design, before, i),
        Expr::Unary(_, a) => reads_known(design, before, a),
        Expr::Binary(_, a, b) => reads_known(design, before, a) & reads_known(design, before, b),
        Expr::Conditional(c, a, b) => {
            reads_known(design, before, c)
                & (reads_known(design, before, a) & reads_known(design, before, b))
        }
        Expr::Concatenation(parts) => parts_known(design, before, parts),
    }
}

#[cycle(reads)]
fn parts_known(design: &Design, before: usize, parts: &Parts<Net>) -> bool
    ensures { result ≡ scope.parts_known (scope.sorts (netlist_of design.now) before) (trees_of parts.now) }
{
    let mut left = parts;
    loop {
        match left {
            Parts::Last(a) => return reads_known(design, before, a),
            Parts::More(a, more) => {
                if !reads_known(design, before, a) {
                    return false;
                }
                left = more;
            }
        }
    }
}

/// Whether what the right side of a wire reads is there.
pub fn right_known(design: &Design, before: usize, right: &Right<Net>) -> bool
    ensures { result ≡ scope.right_known (scope.sorts (netlist_of design.now) before) (right_of right.now) }
{
    match right {
        Right::Plain(e) => reads_known(design, before, e),
        Right::Quotient(a, b) | Right::Remainder(a, b) => {
            is_value(design, before, *a) && is_value(design, before, *b)
        }
    }
}

/// Whether what the expressions of a statement read is there.
#[cycle(stmt_reads)]
pub fn stmt_known(design: &Design, before: usize, stmt: &Stmt<Net>) -> bool
    ensures { result ≡ trees_pass (scope.reads_known (scope.sorts (netlist_of design.now) before)) (statement_of stmt.now) }
{
    match stmt {
        Stmt::Block(more) => stmts_known(design, before, more),
        Stmt::If(c, a) => reads_known(design, before, c) && stmt_known(design, before, a),
        Stmt::IfElse(c, a, b) => {
            reads_known(design, before, c)
                && stmt_known(design, before, a)
                && stmt_known(design, before, b)
        }
        Stmt::Set(_, e) => reads_known(design, before, e),
        Stmt::Store(_, i, e) => reads_known(design, before, i) && reads_known(design, before, e),
    }
}

#[cycle(stmt_reads)]
fn stmts_known(design: &Design, before: usize, stmts: &Stmts<Net>) -> bool
    ensures { result ≡ all_trees_pass (scope.reads_known (scope.sorts (netlist_of design.now) before)) (statements_of stmts.now) }
{
    let mut left = stmts;
    while let Stmts::Then(a, more) = left {
        if !stmt_known(design, before, a) {
            return false;
        }
        left = more;
    }
    true
}
