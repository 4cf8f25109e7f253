//! Whether what always blocks set is there, and is set in one block only.

ghost use Rattle.std.specs.Prelude.{◌≡◌, ◌==◌, nat_lt, true};
ghost use Rattle.std.specs.List.{list_all};
ghost use Rattle.std.proofs.Common.{not};
ghost use Rattle.net_core.specs.View.{statement_of, statements_of};
ghost use Rattle.design_rules.specs.FormedScope as scope;
ghost use Rattle.design_rules.specs.FormedScope.{targets_pass, all_targets_pass};

use net_core::tree::{Net, Stmt, Stmts};

/// Whether what a statement sets is among so many registers and memories.
#[cycle(targets_known)]
pub fn targets_known(registers: usize, memories: usize, stmt: &Stmt<Net>) -> bool
    ensures { result ≡ targets_pass (λ r. nat_lt r registers) (λ m. nat_lt m memories) (statement_of stmt.now) }
{
    match stmt {
        Stmt::Block(more) => all_targets_known(registers, memories, more),
        Stmt::If(_, a) => targets_known(registers, memories, a),
        Stmt::IfElse(_, a, b) => {
            targets_known(registers, memories, a) && targets_known(registers, memories, b)
        }
        Stmt::Set(r, _) => (*r as usize) < registers,
        Stmt::Store(m, _, _) => (*m as usize) < memories,
    }
}

#[cycle(targets_known)]
fn all_targets_known(registers: usize, memories: usize, stmts: &Stmts<Net>) -> bool
    ensures { result ≡ all_targets_pass (λ r. nat_lt r registers) (λ m. nat_lt m memories) (statements_of stmts.now) }
{
    let mut left = stmts;
    while let Stmts::Then(a, more) = left {
        if !targets_known(registers, memories, a) {
            return false;
        }
        left = more;
    }
    true
}

/// Whether a statement does not set a register.
#[cycle(leaves_register)]
fn leaves_register(register: u32, stmt: &Stmt<Net>) -> bool
    ensures { result ≡ scope.leaves_register register (statement_of stmt.now) }
{
    match stmt {
        Stmt::Block(more) => all_leave_register(register, more),
        Stmt::If(_, a) => leaves_register(register, a),
        Stmt::IfElse(_, a, b) => leaves_register(register, a) && leaves_register(register, b),
        Stmt::Set(r, _) => *r != register,
        Stmt::Store(_, _, _) => true,
    }
}

#[cycle(leaves_register)]
fn all_leave_register(register: u32, stmts: &Stmts<Net>) -> bool
    ensures { result ≡ all_targets_pass (λ k. not (k == register)) (λ k. true) (statements_of stmts.now) }
{
    let mut left = stmts;
    while let Stmts::Then(a, more) = left {
        if !leaves_register(register, a) {
            return false;
        }
        left = more;
    }
    true
}

/// Whether a statement does not set a memory.
#[cycle(leaves_memory)]
fn leaves_memory(memory: u32, stmt: &Stmt<Net>) -> bool
    ensures { result ≡ scope.leaves_memory memory (statement_of stmt.now) }
{
    match stmt {
        Stmt::Block(more) => all_leave_memory(memory, more),
        Stmt::If(_, a) => leaves_memory(memory, a),
        Stmt::IfElse(_, a, b) => leaves_memory(memory, a) && leaves_memory(memory, b),
        Stmt::Set(_, _) => true,
        Stmt::Store(m, _, _) => *m != memory,
    }
}

#[cycle(leaves_memory)]
fn all_leave_memory(memory: u32, stmts: &Stmts<Net>) -> bool
    ensures { result ≡ all_targets_pass (λ k. true) (λ k. not (k == memory)) (statements_of stmts.now) }
{
    let mut left = stmts;
    while let Stmts::Then(a, more) = left {
        if !leaves_memory(memory, a) {
            return false;
        }
        left = more;
    }
    true
}

/// Whether no block sets a register.
fn is_register_free(before: &[Stmt<Net>], register: u32) -> bool
    ensures { result ≡ list_all (λ b. scope.leaves_register register (statement_of b)) before.now }
{
    before.iter().all(|block| leaves_register(register, block))
}

/// Whether no block sets a memory.
fn is_memory_free(before: &[Stmt<Net>], memory: u32) -> bool
    ensures { result ≡ list_all (λ b. scope.leaves_memory memory (statement_of b)) before.now }
{
    before.iter().all(|block| leaves_memory(memory, block))
}

/// Whether what a statement sets is set by no block before.
#[cycle(targets_free)]
pub fn targets_free(stmt: &Stmt<Net>, before: &[Stmt<Net>]) -> bool
    ensures { result ≡ targets_pass (λ r. list_all (λ b. scope.leaves_register r (statement_of b)) before.now) (λ m. list_all (λ b. scope.leaves_memory m (statement_of b)) before.now) (statement_of stmt.now) }
{
    match stmt {
        Stmt::Block(more) => all_targets_free(more, before),
        Stmt::If(_, a) => targets_free(a, before),
        Stmt::IfElse(_, a, b) => targets_free(a, before) && targets_free(b, before),
        Stmt::Set(r, _) => is_register_free(before, *r),
        Stmt::Store(m, _, _) => is_memory_free(before, *m),
    }
}

#[cycle(targets_free)]
fn all_targets_free(stmts: &Stmts<Net>, before: &[Stmt<Net>]) -> bool
    ensures { result ≡ all_targets_pass (λ r. list_all (λ b. scope.leaves_register r (statement_of b)) before.now) (λ m. list_all (λ b. scope.leaves_memory m (statement_of b)) before.now) (statements_of stmts.now) }
{
    let mut left = stmts;
    while let Stmts::Then(a, more) = left {
        if !targets_free(a, before) {
            return false;
        }
        left = more;
    }
    true
}
