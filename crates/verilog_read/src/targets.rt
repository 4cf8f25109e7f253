//! Which registers and memories always blocks set.

ghost use Rattle.std.specs.Prelude.{◌≡◌, OnOk};
ghost use Rattle.net_core.specs.View.{statement_of, statements_of};
ghost use Rattle.verilog_read.specs.View.{AddsTargets, AddsAllTargets};

use crate::flags::raise;
use net_core::tree::{Net, Stmt, Stmts};
use std::alloc::AllocError;

/// The registers and the memories that are set, by number.
#[derive(Drop)]
pub(crate) struct Targets {
    pub(crate) registers: Vec<bool>,
    pub(crate) memories: Vec<bool>,
}

/// Notes what a statement sets.
#[cycle(targets)]
pub(crate) fn note(stmt: &Stmt<Net>, targets: &mut Targets) -> Result<(), AllocError>
    ensures { OnOk result (AddsTargets targets.old targets.new (statement_of stmt.now)) }
{
    match stmt {
        Stmt::Block(more) => note_all(more, targets),
        Stmt::If(_, a) => note(a, targets),
        Stmt::IfElse(_, a, b) => {
            note(a, targets)?;
            note(b, targets)
        }
        Stmt::Set(k, _) => raise(&mut targets.registers, *k),
        Stmt::Store(k, _, _) => raise(&mut targets.memories, *k),
    }
}

// Without a recursion over the statements: there may be as many as the text is long.
#[cycle(targets)]
fn note_all(stmts: &Stmts<Net>, targets: &mut Targets) -> Result<(), AllocError>
    ensures { OnOk result (AddsAllTargets targets.old targets.new (statements_of stmts.now)) }
{
    let mut left = stmts;
    while let Stmts::Then(first, more) = left {
        note(first, targets)?;
        left = more;
    }
    Ok(())
}
