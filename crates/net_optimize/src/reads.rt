//! How often wires are read.

use net_core::design::{Assign, Wire};
use net_core::tree::{Expr, Net, Parts, Right, Stmt, Stmts};
use std::alloc::{AllocError, Global};

/// How often each wire is read whole, and how often by some of its bits or as the side of a quotient.
#[derive(Drop)]
pub(crate) struct Reads {
    whole: Vec<u32>,
    parts: Vec<u32>,
}

fn count(counts: &mut [u32], n: Net) {
    if let Net::Wire(i) = n
        && let Some(count) = counts.get_mut(i as usize)
    {
        *count = count.saturating_add(1);
    }
}

impl Reads {
    fn new(alloc: Global, wires: usize) -> Result<Reads, AllocError> {
        let mut whole = Vec::new(alloc);
        let mut parts = Vec::new(alloc);
        for _ in 0..wires {
            whole.push(0)?;
            parts.push(0)?;
        }
        Ok(Reads { whole, parts })
    }

    /// Whether a wire is read.
    pub(crate) fn is_read(&self, wire: usize) -> bool {
        self.whole.get(wire).copied().unwrap_or(0) > 0
            || self.parts.get(wire).copied().unwrap_or(0) > 0
    }

    /// Whether a wire is read once, and whole.
    pub(crate) fn is_read_once(&self, wire: usize) -> bool {
        self.whole.get(wire).copied().unwrap_or(0) == 1
            && self.parts.get(wire).copied().unwrap_or(0) == 0
    }

    #[cycle(expressions)]
    fn count_expr(&mut self, e: &Expr<Net>) {
        match e {
            Expr::Const(_) => {}
            Expr::Read(n) => count(&mut self.whole, *n),
            Expr::Bit(n, _) | Expr::PartSelect(n, _, _) => count(&mut self.parts, *n),
            Expr::MemoryWord(_, a) | Expr::Unary(_, a) => self.count_expr(a),
            Expr::Binary(_, a, b) => {
                self.count_expr(a);
                self.count_expr(b);
            }
            Expr::Conditional(c, a, b) => {
                self.count_expr(c);
                self.count_expr(a);
                self.count_expr(b);
            }
            Expr::Concatenation(parts) => self.count_parts(parts),
        }
    }

    #[cycle(expressions)]
    fn count_parts(&mut self, parts: &Parts<Net>) {
        let mut left = parts;
        loop {
            match left {
                Parts::Last(a) => {
                    self.count_expr(a);
                    return;
                }
                Parts::More(a, more) => {
                    self.count_expr(a);
                    left = more;
                }
            }
        }
    }

    fn count_right(&mut self, right: &Right<Net>) {
        match right {
            Right::Plain(e) => self.count_expr(e),
            Right::Quotient(a, b) | Right::Remainder(a, b) => {
                count(&mut self.parts, *a);
                count(&mut self.parts, *b);
            }
        }
    }

    #[cycle(statements)]
    fn count_stmt(&mut self, stmt: &Stmt<Net>) {
        match stmt {
            Stmt::Block(more) => self.count_stmts(more),
            Stmt::If(c, a) => {
                self.count_expr(c);
                self.count_stmt(a);
            }
            Stmt::IfElse(c, a, b) => {
                self.count_expr(c);
                self.count_stmt(a);
                self.count_stmt(b);
            }
            Stmt::Set(_, e) => self.count_expr(e),
            Stmt::Store(_, i, e) => {
                self.count_expr(i);
                self.count_expr(e);
            }
        }
    }

    #[cycle(statements)]
    fn count_stmts(&mut self, stmts: &Stmts<Net>) {
        let mut left = stmts;
        while let Stmts::Then(a, more) = left {
            self.count_stmt(a);
            left = more;
        }
    }

    /// Whether the right side of a wire has to stay: the wire is read, or its divisor may stop the clock.
    pub(crate) fn is_needed(&self, wire: usize, right: &Right<Net>) -> bool {
        self.is_read(wire) || !matches!(right, Right::Plain(_))
    }
}

/// How often wires are read by outputs, by always blocks, and by wires that are needed.
pub(crate) fn live_reads(
    alloc: Global,
    wires: &[Wire],
    assigns: &[Assign],
    always: &[Stmt<Net>],
) -> Result<Reads, AllocError> {
    let mut reads = Reads::new(alloc, wires.len())?;
    for assign in assigns {
        reads.count_expr(&assign.value);
    }
    for stmt in always {
        reads.count_stmt(stmt);
    }
    // A wire is read by later ones alone.
    let mut left = wires.len();
    while left > 0 {
        left -= 1;
        if reads.is_needed(left, &wires[left].right) {
            reads.count_right(&wires[left].right);
        }
    }
    Ok(reads)
}
