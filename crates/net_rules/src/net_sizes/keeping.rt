//! Whether registers keep their sizes, and which do not.

ghost use Rattle.std.specs.Prelude.{◌≡◌, true, map};
ghost use Rattle.net_core.specs.Nets.{SSet};
ghost use Rattle.net_core.specs.View.{tree_of, statement_of, statements_of};
ghost use Rattle.net_core.specs.Clock.{done, all_done, edge};
ghost use Rattle.net_rules.specs.NetSizes.Fitting.{sizes_of};
ghost use Rattle.net_rules.specs.NetSizes.Keeping.{Keeps};

use crate::net_sizes::expression::expr_size;
use crate::net_sizes::sizes::Sizes;
use net_core::tree::{Expr, Net, Stmt, Stmts};

// Whether the word that a register is set to has its size. Marks the register if not.
fn set_keeps(sizes: &Sizes, wrong: &mut [bool], r: u32, e: &Expr<Net>) -> bool
    ensures { result ≡ true → Keeps (sizes_of sizes.now) (λ v s. done v (SSet r (tree_of e.now)) s) }
{
    let size = sizes.of(Net::Register(r));
    if size == 0 || expr_size(sizes, e) == size {
        return true;
    }
    if let Some(mark) = wrong.get_mut(r as usize) {
        *mark = true;
    }
    false
}

// Whether registers keep their sizes under a statement. Marks those that do not.
#[cycle(keeping)]
fn stmt_keeps(sizes: &Sizes, wrong: &mut [bool], stmt: &Stmt<Net>) -> bool
    ensures { result ≡ true → Keeps (sizes_of sizes.now) (λ v s. done v (statement_of stmt.now) s) }
{
    match stmt {
        Stmt::Block(more) => stmts_keep(sizes, wrong, more),
        Stmt::If(_, a) => stmt_keeps(sizes, wrong, a),
        Stmt::IfElse(_, a, b) => stmt_keeps(sizes, wrong, a) & stmt_keeps(sizes, wrong, b),
        Stmt::Set(r, e) => set_keeps(sizes, wrong, *r, e),
        Stmt::Store(..) => true,
    }
}

// Without a recursion over the statements: there may be any number.
#[cycle(keeping)]
fn stmts_keep(sizes: &Sizes, wrong: &mut [bool], stmts: &Stmts<Net>) -> bool
    ensures { result ≡ true → Keeps (sizes_of sizes.now) (λ v s. all_done v (statements_of stmts.now) s) }
{
    let mut all = true;
    let mut left = stmts;
    while let Stmts::Then(stmt, more) = left {
        all = stmt_keeps(sizes, wrong, stmt) & all;
        left = more;
    }
    all
}

/// Whether registers keep their sizes at an edge. Marks those that do not.
pub(crate) fn edge_keeps(sizes: &Sizes, wrong: &mut [bool], always: &[Stmt<Net>]) -> bool
    ensures { result ≡ true → Keeps (sizes_of sizes.now) (λ v s. edge v (map statement_of always.now) s) }
{
    let mut all = true;
    for stmt in always {
        all = stmt_keeps(sizes, wrong, stmt) & all;
    }
    all
}
