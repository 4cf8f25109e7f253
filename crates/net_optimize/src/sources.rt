//! What registers are set to, and under which conditions, and what is stored: found once for all of them.

use net_core::tree::{Expr, Net, Stmt, Stmts};
use std::alloc::{AllocError, Global};

/// Of each register the expressions that say what it holds next, and those that say what memories hold next.
#[derive(Drop)]
pub(crate) struct Sources<'a> {
    pub(crate) registers: Vec<Vec<&'a Expr<Net>>>,
    pub(crate) memories: Vec<&'a Expr<Net>>,
}

impl<'a> Sources<'a> {
    fn add_to_register(
        &mut self,
        k: u32,
        e: &'a Expr<Net>,
        conditions: &[&'a Expr<Net>],
    ) -> Result<(), AllocError> {
        if let Some(all) = self.registers.get_mut(k as usize) {
            all.push(e)?;
            for c in conditions {
                all.push(*c)?;
            }
        }
        Ok(())
    }

    fn add_to_memories(
        &mut self,
        i: &'a Expr<Net>,
        e: &'a Expr<Net>,
        conditions: &[&'a Expr<Net>],
    ) -> Result<(), AllocError> {
        self.memories.push(i)?;
        self.memories.push(e)?;
        for c in conditions {
            self.memories.push(*c)?;
        }
        Ok(())
    }

    // A statement under these conditions.
    #[cycle(statements)]
    fn add(
        &mut self,
        stmt: &'a Stmt<Net>,
        conditions: &mut Vec<&'a Expr<Net>>,
    ) -> Result<(), AllocError> {
        match stmt {
            Stmt::Block(more) => self.add_all(more, conditions),
            Stmt::If(c, a) => {
                conditions.push(c)?;
                self.add(a, conditions)?;
                let _ = conditions.pop();
                Ok(())
            }
            Stmt::IfElse(c, a, b) => {
                conditions.push(c)?;
                self.add(a, conditions)?;
                self.add(b, conditions)?;
                let _ = conditions.pop();
                Ok(())
            }
            Stmt::Set(k, e) => self.add_to_register(*k, e, conditions.as_slice()),
            Stmt::Store(_, i, e) => self.add_to_memories(i, e, conditions.as_slice()),
        }
    }

    // Without a recursion over the statements: there may be any number.
    #[cycle(statements)]
    fn add_all(
        &mut self,
        stmts: &'a Stmts<Net>,
        conditions: &mut Vec<&'a Expr<Net>>,
    ) -> Result<(), AllocError> {
        let mut left = stmts;
        while let Stmts::Then(a, more) = left {
            self.add(a, conditions)?;
            left = more;
        }
        Ok(())
    }
}

/// What always blocks set so many registers and the memories to.
pub(crate) fn sources_of(
    alloc: Global,
    always: &[Stmt<Net>],
    count: usize,
) -> Result<Sources<'_>, AllocError> {
    let mut registers = Vec::new(alloc);
    for _ in 0..count {
        registers.push(Vec::new(alloc))?;
    }
    let mut all = Sources {
        registers,
        memories: Vec::new(alloc),
    };
    let mut conditions = Vec::new(alloc);
    for stmt in always {
        all.add(stmt, &mut conditions)?;
    }
    Ok(all)
}
