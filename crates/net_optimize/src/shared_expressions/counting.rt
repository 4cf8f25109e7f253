//! How often expressions stand in a design.

use net_core::design::Design;
use net_core::net_trees::mark::mark;
use net_core::tree::{Expr, Net, Parts, Right, Stmt, Stmts};
use std::alloc::{AllocError, Global};
use std::collections::HashMap;

/// The marks of expressions, and how often each stands in another expression or by itself. One that stands in several equal ones counts
/// once for all of them.
#[derive(Drop)]
pub(crate) struct Counts {
    counts: HashMap<u64, u32>,
}

impl Counts {
    fn new(alloc: Global) -> Counts {
        Counts {
            counts: HashMap::new(alloc),
        }
    }

    /// Whether an expression stands at several places.
    pub(crate) fn is_common(&self, e: &Expr<Net>) -> bool {
        is_operator(e) && self.counts.get(&mark(e)).copied().unwrap_or(0) > 1
    }

    // Whether it is the first one of its mark.
    fn is_first(&mut self, e: &Expr<Net>) -> Result<bool, AllocError> {
        let count = self.counts.entry(mark(e))?.or_insert(0);
        *count = count.saturating_add(1);
        Ok(*count == 1)
    }

    #[cycle(expressions)]
    fn add(&mut self, e: &Expr<Net>) -> Result<(), AllocError> {
        if !is_operator(e) || !self.is_first(e)? {
            return Ok(());
        }
        match e {
            Expr::MemoryWord(_, a) | Expr::Unary(_, a) => self.add(a),
            Expr::Binary(_, a, b) => {
                self.add(a)?;
                self.add(b)
            }
            Expr::Conditional(c, a, b) => {
                self.add(c)?;
                self.add(a)?;
                self.add(b)
            }
            Expr::Concatenation(parts) => self.add_parts(parts),
            _ => Ok(()),
        }
    }

    #[cycle(expressions)]
    fn add_parts(&mut self, parts: &Parts<Net>) -> Result<(), AllocError> {
        let mut left = parts;
        loop {
            match left {
                Parts::Last(last) => return self.add(last),
                Parts::More(part, more) => {
                    self.add(part)?;
                    left = more;
                }
            }
        }
    }
}

/// Whether an expression costs something.
pub(crate) fn is_operator(e: &Expr<Net>) -> bool {
    !matches!(
        e,
        Expr::Const(_) | Expr::Read(_) | Expr::Bit(..) | Expr::PartSelect(..)
    )
}

#[cycle(statements)]
fn add_stmt<'a>(all: &mut Vec<&'a Expr<Net>>, stmt: &'a Stmt<Net>) -> Result<(), AllocError> {
    match stmt {
        Stmt::Block(more) => add_stmts(all, more),
        Stmt::If(c, a) => {
            all.push(c)?;
            add_stmt(all, a)
        }
        Stmt::IfElse(c, a, b) => {
            all.push(c)?;
            add_stmt(all, a)?;
            add_stmt(all, b)
        }
        Stmt::Set(_, e) => Ok(all.push(e)?),
        Stmt::Store(_, i, e) => {
            all.push(i)?;
            Ok(all.push(e)?)
        }
    }
}

#[cycle(statements)]
fn add_stmts<'a>(all: &mut Vec<&'a Expr<Net>>, stmts: &'a Stmts<Net>) -> Result<(), AllocError> {
    let mut left = stmts;
    while let Stmts::Then(first, more) = left {
        add_stmt(all, first)?;
        left = more;
    }
    Ok(())
}

/// The expressions of outputs and statements.
pub(crate) fn behind_wires(alloc: Global, design: &Design) -> Result<Vec<&Expr<Net>>, AllocError> {
    let mut all = Vec::new(alloc);
    for assign in &design.assigns {
        all.push(&assign.value)?;
    }
    for stmt in &design.always {
        add_stmt(&mut all, stmt)?;
    }
    Ok(all)
}

/// Counts the expressions of a design.
pub(crate) fn counted(alloc: Global, design: &Design) -> Result<Counts, AllocError> {
    let mut counts = Counts::new(alloc);
    for wire in &design.wires {
        if let Right::Plain(e) = &wire.right {
            counts.add(e)?;
        }
    }
    for e in behind_wires(alloc, design)? {
        counts.add(e)?;
    }
    Ok(counts)
}
