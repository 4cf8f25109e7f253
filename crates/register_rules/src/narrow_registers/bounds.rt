//! How many low bits of registers and wires have to stay, since they are read apart, and how often each is read.

use net_core::design::{Declared, Design};
use net_core::tree::{Expr, Net, Parts, Right, Stmt, Stmts};
use std::alloc::{AllocError, Global};

/// How often a net of fewer bits is read whole at most: each time it is read after zeros.
const MOST_READS: u8 = 8;

/// Of a net how many low bits have to stay, and how often it is read whole and in part.
#[derive(Clone, Copy)]
struct Need {
    kept: u8,
    reads: u8,
    selects: u8,
}

const NOTHING: Need = Need {
    kept: 0,
    reads: 0,
    selects: 0,
};

/// What each register and each wire needs.
#[derive(Drop)]
pub(crate) struct Needs {
    registers: Vec<Need>,
    wires: Vec<Need>,
}

impl Needs {
    fn of(&self, n: Net) -> Need {
        let found = match n {
            Net::Register(k) => self.registers.get(k as usize),
            Net::Wire(k) => self.wires.get(k as usize),
            Net::Port(_) | Net::Memory(_) => None,
        };
        found.copied().unwrap_or(NOTHING)
    }

    fn of_mut(&mut self, n: Net) -> Option<&mut Need> {
        match n {
            Net::Register(k) => self.registers.get_mut(k as usize),
            Net::Wire(k) => self.wires.get_mut(k as usize),
            Net::Port(_) | Net::Memory(_) => None,
        }
    }

    // At least so many bits of a net stay.
    fn keep(&mut self, n: Net, bits: u8) {
        if let Some(need) = self.of_mut(n) {
            need.kept = need.kept.max(bits);
        }
    }

    // A net is read whole once more.
    fn read(&mut self, n: Net) {
        if let Some(need) = self.of_mut(n) {
            need.reads = need.reads.saturating_add(1);
        }
    }

    // A net is read in part once more.
    fn select(&mut self, n: Net) {
        if let Some(need) = self.of_mut(n) {
            need.selects = need.selects.saturating_add(1);
        }
    }

    /// How many low bits of a net are read apart.
    pub(crate) fn kept(&self, n: Net) -> u8 {
        self.of(n).kept
    }

    /// How many low bits of a net stay: all, where it is read too often.
    pub(crate) fn bits(&self, n: Net) -> u8 {
        let need = self.of(n);
        if need.reads > MOST_READS {
            return u8::MAX;
        }
        need.kept
    }

    /// How often a net is read.
    pub(crate) fn all_reads(&self, n: Net) -> u8 {
        let need = self.of(n);
        need.reads.saturating_add(need.selects)
    }

    #[cycle(bound_expressions)]
    fn bound_expr(&mut self, e: &Expr<Net>) {
        match e {
            Expr::Const(_) => {}
            Expr::Read(n) => self.read(*n),
            // A net of one bit has no selects.
            Expr::Bit(n, high) | Expr::PartSelect(n, high, _) => {
                self.keep(*n, high.saturating_add(1).max(2));
                self.select(*n);
            }
            Expr::MemoryWord(_, a) | Expr::Unary(_, a) => self.bound_expr(a),
            Expr::Binary(_, a, b) => {
                self.bound_expr(a);
                self.bound_expr(b);
            }
            Expr::Conditional(c, a, b) => {
                self.bound_expr(c);
                self.bound_expr(a);
                self.bound_expr(b);
            }
            Expr::Concatenation(parts) => self.bound_parts(parts),
        }
    }

    #[cycle(bound_expressions)]
    fn bound_parts(&mut self, parts: &Parts<Net>) {
        let mut left = parts;
        loop {
            match left {
                Parts::Last(a) => {
                    self.bound_expr(a);
                    return;
                }
                Parts::More(a, more) => {
                    self.bound_expr(a);
                    left = more;
                }
            }
        }
    }

    // The sides of a quotient are nets, read whole.
    fn bound_right(&mut self, right: &Right<Net>) {
        match right {
            Right::Plain(e) => self.bound_expr(e),
            Right::Quotient(a, b) | Right::Remainder(a, b) => {
                self.keep(*a, u8::MAX);
                self.keep(*b, u8::MAX);
            }
        }
    }

    #[cycle(bound_statements)]
    fn bound_stmt(&mut self, stmt: &Stmt<Net>) {
        match stmt {
            Stmt::Block(more) => self.bound_stmts(more),
            Stmt::If(c, a) => {
                self.bound_expr(c);
                self.bound_stmt(a);
            }
            Stmt::IfElse(c, a, b) => {
                self.bound_expr(c);
                self.bound_stmt(a);
                self.bound_stmt(b);
            }
            // A copy is as narrow.
            Stmt::Set(_, Expr::Read(_)) => {}
            Stmt::Set(_, e) => self.bound_expr(e),
            Stmt::Store(_, i, e) => {
                self.bound_expr(i);
                self.bound_expr(e);
            }
        }
    }

    #[cycle(bound_statements)]
    fn bound_stmts(&mut self, stmts: &Stmts<Net>) {
        let mut left = stmts;
        while let Stmts::Then(a, more) = left {
            self.bound_stmt(a);
            left = more;
        }
    }
}

fn registers_of(declared: &[Declared]) -> usize {
    let mut all: usize = 0;
    for item in declared {
        if let Declared::Register(_) = item {
            all = all.saturating_add(1);
        }
    }
    all
}

fn nothing(alloc: Global, count: usize) -> Result<Vec<Need>, AllocError> {
    let mut all = Vec::new(alloc);
    for _ in 0..count {
        all.push(NOTHING)?;
    }
    Ok(all)
}

/// What the reads of a design need.
pub(crate) fn bounds(alloc: Global, design: &Design) -> Result<Needs, AllocError> {
    let registers = nothing(alloc, registers_of(&design.declared))?;
    let wires = nothing(alloc, design.wires.len())?;
    let mut all = Needs { registers, wires };
    for wire in &design.wires {
        all.bound_right(&wire.right);
    }
    for assign in &design.assigns {
        all.bound_expr(&assign.value);
    }
    for stmt in &design.always {
        all.bound_stmt(stmt);
    }
    Ok(all)
}
