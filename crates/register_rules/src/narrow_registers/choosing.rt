//! How many high bits of each register and of each wire are always 0.

use crate::narrow_registers::bounds::Needs;
use crate::narrow_registers::zeros::Zeros;
use net_core::design::{Declared, Design, Wire};
use net_core::tree::{Expr, Net, Op, Parts, Right, Stmt, Stmts, Word};
use std::alloc::{AllocError, Global};

/// How often the design is gone through at most.
pub(crate) const ROUNDS: u32 = 300;

// The high bits of a word that are 0. One bit stays.
fn word_zeros(word: Word) -> u8 {
    let bits = (64 - word.value.leading_zeros()) as u8;
    word.width.saturating_sub(bits.max(1))
}

// The high bits of an expression that are 0, where nets have so many. One bit stays.
#[cycle(expressions)]
fn expr_zeros(zeros: &Zeros, e: &Expr<Net>) -> u8 {
    match e {
        Expr::Const(word) => word_zeros(*word),
        Expr::Read(n) => zeros.of(*n),
        Expr::Binary(Op::And | Op::Or | Op::Xor, a, b) | Expr::Conditional(_, a, b) => {
            expr_zeros(zeros, a).min(expr_zeros(zeros, b))
        }
        Expr::Concatenation(parts) => parts_zeros(zeros, parts),
        _ => 0,
    }
}

// Zeros in front, and those of the first part that is none.
#[cycle(expressions)]
fn parts_zeros(zeros: &Zeros, parts: &Parts<Net>) -> u8 {
    let mut all: u8 = 0;
    let mut left = parts;
    loop {
        match left {
            Parts::More(Expr::Const(word), more) if word.value == 0 => {
                all = all.saturating_add(word.width);
                left = more;
            }
            Parts::Last(a) | Parts::More(a, _) => return all.saturating_add(expr_zeros(zeros, a)),
        }
    }
}

impl Zeros {
    // Fewer zeros of a net that has the value of an expression. Answers whether there are fewer.
    fn lower(&mut self, n: Net, e: &Expr<Net>) -> bool {
        let most = expr_zeros(self, e);
        match self.of_mut(n) {
            Some(now) if *now > most => {
                *now = most;
                true
            }
            _ => false,
        }
    }

    // Fewer zeros of what a statement sets.
    #[cycle(lowered)]
    fn lower_set(&mut self, stmt: &Stmt<Net>) -> bool {
        match stmt {
            Stmt::Block(more) => self.lower_all_set(more),
            Stmt::If(_, a) => self.lower_set(a),
            Stmt::IfElse(_, a, b) => {
                let first = self.lower_set(a);
                self.lower_set(b) || first
            }
            Stmt::Set(k, e) => self.lower(Net::Register(*k), e),
            Stmt::Store(..) => false,
        }
    }

    #[cycle(lowered)]
    fn lower_all_set(&mut self, stmts: &Stmts<Net>) -> bool {
        let mut is_less = false;
        let mut left = stmts;
        while let Stmts::Then(a, more) = left {
            is_less = self.lower_set(a) || is_less;
            left = more;
        }
        is_less
    }

    // Once through a design.
    fn lower_once(&mut self, wires: &[Wire], always: &[Stmt<Net>]) -> bool {
        let mut is_less = false;
        let mut at = 0;
        for wire in wires {
            if let Right::Plain(e) = &wire.right {
                is_less = self.lower(Net::Wire(at), e) || is_less;
            }
            at = at.saturating_add(1);
        }
        for stmt in always {
            is_less = self.lower_set(stmt) || is_less;
        }
        is_less
    }
}

// As many zeros as bits that are not needed, at first.
fn most_zeros(alloc: Global, design: &Design, needs: &Needs) -> Result<Zeros, AllocError> {
    let mut registers = Vec::new(alloc);
    let mut next = 0;
    for declared in &design.declared {
        if let Declared::Register(word) = declared {
            let needed = needs.bits(Net::Register(next));
            registers.push(word_zeros(*word).min(word.width.saturating_sub(needed)))?;
            next = next.saturating_add(1);
        }
    }
    let mut wires = Vec::new(alloc);
    let mut next = 0;
    for wire in &design.wires {
        let needed = needs.bits(Net::Wire(next)).max(1);
        let zeros = match wire.right {
            Right::Plain(_) => wire.width.saturating_sub(needed),
            Right::Quotient(..) | Right::Remainder(..) => 0,
        };
        wires.push(zeros)?;
        next = next.saturating_add(1);
    }
    Ok(Zeros { registers, wires })
}

/// How many high bits each register and each wire of a design can lose.
pub(crate) fn high_zeros(
    alloc: Global,
    design: &Design,
    needs: &Needs,
) -> Result<Zeros, AllocError> {
    let mut zeros = most_zeros(alloc, design, needs)?;
    for _ in 0..ROUNDS {
        if !zeros.lower_once(&design.wires, &design.always) {
            return Ok(zeros);
        }
    }
    Ok(Zeros {
        registers: Vec::new(alloc),
        wires: Vec::new(alloc),
    })
}
