//! What the grammar of the subset can spell.

ghost use Rattle.std.specs.Prelude.{◌≡◌, ◌↔◌, ◌≤◌, IsTrue};
ghost use Rattle.net_core.specs.View.{tree_of, trees_of, right_of, statement_of, statements_of};
ghost use Rattle.design_rules.specs.FormedSyntax as syntax;
ghost use Rattle.design_rules.specs.FormedSyntax.{depth, parts_depth, statement_depth, statements_depth, trees_pass, all_trees_pass};

use net_core::tree::{Expr, Net, Parts, Right, Stmt, Stmts};

/// How deep trees may stand in one another.
const DEPTH: u8 = 64;

/// Whether an expression is no deeper than `most`.
#[cycle(nests)]
#[tactic(auto, using(crate::proofs::FormedSyntax::depth_some))]
fn nests(e: &Expr<Net>, most: u8) -> bool
    ensures { IsTrue result ↔ (depth (tree_of e.now) ≤ most) }
{
    if most == 0 {
        return false;
    }
    match e {
        Expr::Const(_) | Expr::Read(_) | Expr::Bit(_, _) | Expr::PartSelect(_, _, _) => true,
        Expr::MemoryWord(_, i) => nests(i, most - 1),
        Expr::Unary(_, a) => nests(a, most - 1),
        Expr::Binary(_, a, b) => nests(a, most - 1) && nests(b, most - 1),
        Expr::Conditional(c, a, b) => {
            nests(c, most - 1) && nests(a, most - 1) && nests(b, most - 1)
        }
        Expr::Concatenation(parts) => parts_nest(parts, most - 1),
    }
}

#[cycle(nests)]
fn parts_nest(parts: &Parts<Net>, most: u8) -> bool
    ensures { IsTrue result ↔ (parts_depth (trees_of parts.now) ≤ most) }
{
    let mut left = parts;
    loop {
        match left {
            Parts::Last(a) => return nests(a, most),
            Parts::More(a, more) => {
                if !nests(a, most) {
                    return false;
                }
                left = more;
            }
        }
    }
}

/// Whether an expression begins with a prefix operator.
fn is_prefixed(e: &Expr<Net>) -> bool
    ensures { result ≡ syntax.is_prefixed (tree_of e.now) }
{
    match e {
        Expr::Unary(_, _) => true,
        _ => false,
    }
}

/// Whether no operand of a prefix operator begins with one.
#[cycle(apart)]
fn prefixes_apart(e: &Expr<Net>) -> bool
    ensures { result ≡ syntax.prefixes_apart (tree_of e.now) }
{
    match e {
        Expr::Const(_) | Expr::Read(_) | Expr::Bit(_, _) | Expr::PartSelect(_, _, _) => true,
        Expr::MemoryWord(_, i) => prefixes_apart(i),
        Expr::Unary(_, a) => !is_prefixed(a) && prefixes_apart(a),
        Expr::Binary(_, a, b) => prefixes_apart(a) && prefixes_apart(b),
        Expr::Conditional(c, a, b) => prefixes_apart(c) && prefixes_apart(a) && prefixes_apart(b),
        Expr::Concatenation(parts) => parts_apart(parts),
    }
}

#[cycle(apart)]
fn parts_apart(parts: &Parts<Net>) -> bool
    ensures { result ≡ syntax.parts_apart (trees_of parts.now) }
{
    let mut left = parts;
    loop {
        match left {
            Parts::Last(a) => return prefixes_apart(a),
            Parts::More(a, more) => {
                if !prefixes_apart(a) {
                    return false;
                }
                left = more;
            }
        }
    }
}

/// Whether the grammar has an expression, where it stands in an item or a statement.
pub fn tree_spelled(e: &Expr<Net>) -> bool
    ensures { result ≡ syntax.tree_spelled (tree_of e.now) }
{
    nests(e, DEPTH) && prefixes_apart(e)
}

/// Whether the grammar has the right side of a wire.
pub fn right_spelled(right: &Right<Net>) -> bool
    ensures { result ≡ syntax.right_spelled (right_of right.now) }
{
    match right {
        Right::Plain(e) => tree_spelled(e),
        Right::Quotient(_, _) | Right::Remainder(_, _) => true,
    }
}

/// Whether a statement is no deeper than `most`.
#[cycle(stmt_nests)]
#[tactic(auto, using(crate::proofs::FormedSyntax::statement_depth_some))]
fn stmt_nests(stmt: &Stmt<Net>, most: u8) -> bool
    ensures { IsTrue result ↔ (statement_depth (statement_of stmt.now) ≤ most) }
{
    if most == 0 {
        return false;
    }
    match stmt {
        Stmt::Block(more) => stmts_nest(more, most - 1),
        Stmt::If(_, a) => stmt_nests(a, most - 1),
        Stmt::IfElse(_, a, b) => stmt_nests(a, most - 1) && stmt_nests(b, most - 1),
        Stmt::Set(_, _) | Stmt::Store(_, _, _) => true,
    }
}

#[cycle(stmt_nests)]
fn stmts_nest(stmts: &Stmts<Net>, most: u8) -> bool
    ensures { IsTrue result ↔ (statements_depth (statements_of stmts.now) ≤ most) }
{
    let mut left = stmts;
    while let Stmts::Then(a, more) = left {
        if !stmt_nests(a, most) {
            return false;
        }
        left = more;
    }
    true
}

/// Whether a statement ends with an `if` that would take an `else` after it.
fn ends_open(stmt: &Stmt<Net>) -> bool
    ensures { result ≡ syntax.ends_open (statement_of stmt.now) }
{
    match stmt {
        Stmt::If(_, _) => true,
        Stmt::IfElse(_, _, b) => ends_open(b),
        Stmt::Block(_) | Stmt::Set(_, _) | Stmt::Store(_, _, _) => false,
    }
}

/// Whether each `else` belongs to its own `if`.
#[cycle(placed)]
fn elses_placed(stmt: &Stmt<Net>) -> bool
    ensures { result ≡ syntax.elses_placed (statement_of stmt.now) }
{
    match stmt {
        Stmt::Block(more) => all_placed(more),
        Stmt::If(_, a) => elses_placed(a),
        Stmt::IfElse(_, a, b) => !ends_open(a) && elses_placed(a) && elses_placed(b),
        Stmt::Set(_, _) | Stmt::Store(_, _, _) => true,
    }
}

#[cycle(placed)]
fn all_placed(stmts: &Stmts<Net>) -> bool
    ensures { result ≡ syntax.all_placed (statements_of stmts.now) }
{
    let mut left = stmts;
    while let Stmts::Then(a, more) = left {
        if !elses_placed(a) {
            return false;
        }
        left = more;
    }
    true
}

/// Whether the grammar has each expression of a statement.
#[cycle(trees)]
fn trees_spelled(stmt: &Stmt<Net>) -> bool
    ensures { result ≡ trees_pass syntax.tree_spelled (statement_of stmt.now) }
{
    match stmt {
        Stmt::Block(more) => all_trees_spelled(more),
        Stmt::If(c, a) => tree_spelled(c) && trees_spelled(a),
        Stmt::IfElse(c, a, b) => tree_spelled(c) && trees_spelled(a) && trees_spelled(b),
        Stmt::Set(_, e) => tree_spelled(e),
        Stmt::Store(_, i, e) => tree_spelled(i) && tree_spelled(e),
    }
}

#[cycle(trees)]
fn all_trees_spelled(stmts: &Stmts<Net>) -> bool
    ensures { result ≡ all_trees_pass syntax.tree_spelled (statements_of stmts.now) }
{
    let mut left = stmts;
    while let Stmts::Then(a, more) = left {
        if !trees_spelled(a) {
            return false;
        }
        left = more;
    }
    true
}

/// Whether the grammar has a statement.
pub fn stmt_spelled(stmt: &Stmt<Net>) -> bool
    ensures { result ≡ syntax.statement_spelled (statement_of stmt.now) }
{
    stmt_nests(stmt, DEPTH) && elses_placed(stmt) && trees_spelled(stmt)
}
