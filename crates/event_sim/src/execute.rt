//! The assignments of always blocks: all from the values before the edge.

ghost use Rattle.std.specs.Prelude.{◌≡◌, ◌<◌, length, map, All};
ghost use Rattle.net_core.specs.Clock.{done, all_done, edge};
ghost use Rattle.net_core.specs.View.{statement_of, statements_of};
ghost use Rattle.event_sim.specs.Views.{env_in};
ghost use Rattle.event_sim.specs.Orders.{blocks_in};
ghost use Rattle.event_sim.specs.Readable.{IsStatement, AreStatements, AreBlocks};

use crate::evaluate::value_of;
use crate::held::Held;
use crate::values::Values;
use net_core::tree::{Net, Stmt, Stmts};

/// Executes a statement: what it reads stands in the values, and what it sets goes into `next`. It calls itself for the
/// statements in a statement: 64 levels deep at most in a design that a text spells.
#[cycle(execute)]
pub fn execute(statement: &Stmt<Net>, values: &Values, next: &mut Held)
    requires { IsStatement (env_in values.now) (statement_of statement.now) }
    ensures { next.new ≡ done (env_in values.now) (statement_of statement.now) next.old }
{
    match statement {
        Stmt::Block(more) => execute_all(more, values, next),
        Stmt::If(c, a) => {
            if value_of(c, values).value != 0 {
                execute(a, values, next);
            }
        }
        Stmt::IfElse(c, a, b) => {
            if value_of(c, values).value == 0 {
                execute(b, values, next);
            } else {
                execute(a, values, next);
            }
        }
        Stmt::Set(register, e) => {
            let word = value_of(e, values);
            next.set(*register as usize, word);
        }
        Stmt::Store(memory, index, e) => {
            let at = value_of(index, values);
            let word = value_of(e, values);
            next.store(*memory as usize, at.value as usize, word);
        }
    }
}

#[cycle(execute)]
fn execute_all(statements: &Stmts<Net>, values: &Values, next: &mut Held)
    requires { AreStatements (env_in values.now) (statements_of statements.now) }
    ensures { next.new ≡ all_done (env_in values.now) (statements_of statements.now) next.old }
{
    let mut left = statements;
    while let Stmts::Then(a, more) = left {
        execute(a, values, next);
        left = more;
    }
}

/// Executes the always blocks of these numbers, one after another.
pub fn execute_blocks(order: &[u32], blocks: &[Stmt<Net>], values: &Values, next: &mut Held)
    requires there { All (λ k. k < length blocks.now) order.now }
    requires blocks { AreBlocks (env_in values.now) (map statement_of blocks.now) }
    ensures { next.new ≡ edge (env_in values.now) (blocks_in order.now (map statement_of blocks.now)) next.old }
{
    for block in order {
        execute(&blocks[*block as usize], values, next);
    }
}
