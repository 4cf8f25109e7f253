//! Which registers always hold one of two words.

use crate::narrow_registers::bounds::Needs;
use crate::narrow_registers::choosing::ROUNDS;
use crate::narrow_registers::codes::{Code, code_at};
use crate::narrow_registers::words::is_same_word;
use crate::narrow_registers::zeros::number_at;
use net_core::design::{Declared, Design};
use net_core::tree::{Expr, Net, Stmt, Stmts, Word};
use std::alloc::{AllocError, Global};

/// How often a register of two words is read at most: each time one of two words is chosen.
const MOST_READS: u8 = 4;

/// Of a register that is a side of a quotient, or of which bit 63 is selected, so many low bits stay at least: it has no choice.
const MOST_BITS: u8 = 64;

/// A code for each register: of the one or two words that it may hold, or of no zeros where there are others.
#[derive(Drop)]
struct Held {
    codes: Vec<Code>,
}

impl Held {
    // A register may hold any word. Answers whether that is new.
    fn give_up(&mut self, k: u32) -> bool {
        match self.codes.get_mut(k as usize) {
            Some(code) if matches!(*code, Code::Choice(..)) => {
                *code = Code::Zeros(0);
                true
            }
            _ => false,
        }
    }

    // A register may hold a word. Answers whether that is new.
    fn add(&mut self, k: u32, word: Word) -> bool {
        let Some(code) = self.codes.get_mut(k as usize) else {
            return false;
        };
        let Code::Choice(a, b) = *code else {
            return false;
        };
        if is_same_word(word, a) || is_same_word(word, b) {
            return false;
        }
        *code = if is_same_word(a, b) {
            Code::Choice(a, word)
        } else {
            Code::Zeros(0)
        };
        true
    }

    // A register may hold what another one holds. Two words stand in one order in both, so that the bit is the same.
    fn add_of(&mut self, k: u32, other: Code) -> bool {
        let Code::Choice(a, b) = other else {
            return self.give_up(k);
        };
        let is_first_new = self.add(k, a);
        let is_new = self.add(k, b) || is_first_new;
        match code_at(&self.codes, k as usize) {
            Code::Choice(first, _) if !is_same_word(a, b) && !is_same_word(a, first) => {
                self.give_up(k)
            }
            _ => is_new,
        }
    }

    #[cycle(held)]
    fn add_value(&mut self, k: u32, e: &Expr<Net>) -> bool {
        match e {
            Expr::Const(word) => self.add(k, *word),
            Expr::Read(Net::Register(other)) => {
                let other = code_at(&self.codes, *other as usize);
                self.add_of(k, other)
            }
            Expr::Conditional(_, a, b) => {
                let is_new = self.add_value(k, a);
                self.add_value(k, b) || is_new
            }
            _ => self.give_up(k),
        }
    }

    #[cycle(held_statements)]
    fn add_set(&mut self, stmt: &Stmt<Net>) -> bool {
        match stmt {
            Stmt::Block(more) => self.add_all_set(more),
            Stmt::If(_, a) => self.add_set(a),
            Stmt::IfElse(_, a, b) => {
                let is_new = self.add_set(a);
                self.add_set(b) || is_new
            }
            Stmt::Set(k, e) => self.add_value(*k, e),
            Stmt::Store(..) => false,
        }
    }

    #[cycle(held_statements)]
    fn add_all_set(&mut self, stmts: &Stmts<Net>) -> bool {
        let mut is_new = false;
        let mut left = stmts;
        while let Stmts::Then(a, more) = left {
            is_new = self.add_set(a) || is_new;
            left = more;
        }
        is_new
    }

    // All that registers may hold. Answers whether it was found.
    fn settle(&mut self, always: &[Stmt<Net>]) -> bool {
        for _ in 0..ROUNDS {
            let mut is_new = false;
            for stmt in always {
                is_new = self.add_set(stmt) || is_new;
            }
            if !is_new {
                return true;
            }
        }
        false
    }

    // Leaves registers of two words as they are that have one bit, or are read often.
    fn leave(&mut self, needs: &Needs, zeros: &[u8]) {
        let mut at = 0;
        for code in self.codes.iter_mut() {
            if let Code::Choice(a, b) = *code
                && !is_same_word(a, b)
                && (a.width.saturating_sub(number_at(zeros, at as usize)) < 2
                    || needs.all_reads(Net::Register(at)) > MOST_READS)
            {
                *code = Code::Zeros(0);
            }
            at = at.saturating_add(1);
        }
    }
}

// The first words.
fn first_held(alloc: Global, design: &Design, needs: &Needs) -> Result<Held, AllocError> {
    let mut codes = Vec::new(alloc);
    let mut at = 0;
    for declared in &design.declared {
        if let Declared::Register(word) = declared {
            let is_free = needs.kept(Net::Register(at)) < MOST_BITS;
            codes.push(if is_free {
                Code::Choice(*word, *word)
            } else {
                Code::Zeros(0)
            })?;
            at = at.saturating_add(1);
        }
    }
    Ok(Held { codes })
}

// Codes of zeros alone.
fn zero_codes(alloc: Global, zeros: &[u8]) -> Result<Vec<Code>, AllocError> {
    zeros.iter().map(|z| Code::Zeros(*z)).collect(alloc)
}

// A code for each register of a design: of one or two words where it always holds one of these, else of its zeros.
fn choices(
    alloc: Global,
    design: &Design,
    needs: &Needs,
    zeros: &[u8],
) -> Result<Vec<Code>, AllocError> {
    let mut held = first_held(alloc, design, needs)?;
    if !held.settle(&design.always) {
        return zero_codes(alloc, zeros);
    }
    held.leave(needs, zeros);
    if !held.settle(&design.always) {
        return zero_codes(alloc, zeros);
    }
    let mut codes = Vec::new(alloc);
    for (k, code) in held.codes.iter().enumerate() {
        codes.push(match code {
            Code::Choice(..) => *code,
            Code::Zeros(_) => Code::Zeros(number_at(zeros, k)),
        })?;
    }
    Ok(codes)
}

/// A code for each register of a design: of its zeros, or of one or two words where it always holds one of these and that is asked for.
pub(crate) fn chosen_codes(
    alloc: Global,
    design: &Design,
    needs: &Needs,
    zeros: &[u8],
    to_bits: bool,
) -> Result<Vec<Code>, AllocError> {
    if to_bits {
        return choices(alloc, design, needs, zeros);
    }
    zero_codes(alloc, zeros)
}
