//! Statements that set narrower registers.

ghost use Rattle.std.specs.Prelude.{IfOk};
ghost use Rattle.net_core.specs.View.{statement_of, statements_of};
ghost use Rattle.net_core.specs.Clock.{done, all_done};
ghost use Rattle.register_rules.specs.NarrowRegisters.Narrow.{StoreTheSame, coding_of};

use crate::narrow_registers::codes::Codes;
use crate::narrow_registers::encoding::encoded;
use crate::narrow_registers::stop::Stop;
use crate::narrow_registers::widening::wide;
use net_core::build::{self, block, when, when_else};
use net_core::tree::{Net, Stmt, Stmts};
use std::alloc::Global;

/// A statement that stores the same.
#[cycle(statements)]
pub(crate) fn narrow_stmt(alloc: Global, codes: &Codes, stmt: &Stmt<Net>) -> Result<Stmt<Net>, Stop>
    ensures { IfOk result (λ r. StoreTheSame (coding_of codes.now) (λ v s. done v (statement_of stmt.now) s) (λ v s. done v (statement_of r) s)) }
{
    match stmt {
        Stmt::Block(more) => {
            let more = narrow_stmts(alloc, codes, more)?;
            Ok(block(alloc, more)?)
        }
        Stmt::If(c, a) => {
            let c = wide(alloc, codes, c)?;
            let a = narrow_stmt(alloc, codes, a)?;
            Ok(when(alloc, c, a)?)
        }
        Stmt::IfElse(c, a, b) => {
            let c = wide(alloc, codes, c)?;
            let a = narrow_stmt(alloc, codes, a)?;
            let b = narrow_stmt(alloc, codes, b)?;
            Ok(when_else(alloc, c, a, b)?)
        }
        Stmt::Set(k, e) => {
            let e = encoded(alloc, codes, e, codes.of(Net::Register(*k)))?;
            Ok(Stmt::Set(*k, e))
        }
        Stmt::Store(m, i, e) => {
            let i = wide(alloc, codes, i)?;
            let e = wide(alloc, codes, e)?;
            Ok(Stmt::Store(*m, i, e))
        }
    }
}

// Without a recursion over the statements: there may be any number.
#[cycle(statements)]
fn narrow_stmts(alloc: Global, codes: &Codes, stmts: &Stmts<Net>) -> Result<Stmts<Net>, Stop>
    ensures { IfOk result (λ r. StoreTheSame (coding_of codes.now) (λ v s. all_done v (statements_of stmts.now) s) (λ v s. all_done v (statements_of r) s)) }
{
    let mut prefix = Vec::new(alloc);
    let mut left = stmts;
    while let Stmts::Then(first, more) = left {
        prefix.push(narrow_stmt(alloc, codes, first)?)?;
        left = more;
    }
    let more = build::statements(alloc, prefix)?;
    Ok(more)
}
