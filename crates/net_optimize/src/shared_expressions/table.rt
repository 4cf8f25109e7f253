//! The wires of a design, and before those that read them common expressions as wires of their own.

use crate::shared_expressions::counting::{Counts, behind_wires, is_operator};
use crate::shared_expressions::rewriting::{inside, rewritten_right};
use net_core::design::{Design, Wire};
use net_core::net_trees::mark::mark;
use net_core::tree::{Expr, Net, Parts, Right};
use net_core::typed::width_of;
use std::alloc::{AllocError, Global};
use std::collections::HashMap;

/// Wires, the new number of each former one, and by their marks the first wires of plain right sides.
#[derive(Drop)]
pub(crate) struct Table {
    pub(crate) wires: Vec<Wire>,
    pub(crate) numbers: Vec<u32>,
    pub(crate) places: HashMap<u64, u32>,
}

fn number(len: usize) -> u32 {
    u32::try_from(len).unwrap_or(u32::MAX)
}

impl Table {
    fn new(alloc: Global) -> Table {
        Table {
            wires: Vec::new(alloc),
            numbers: Vec::new(alloc),
            places: HashMap::new(alloc),
        }
    }

    fn is_placed(&self, e: &Expr<Net>) -> bool {
        self.places.contains_key(&mark(e))
    }

    fn push(&mut self, width: u8, right: Right<Net>) -> Result<(), AllocError> {
        if let Right::Plain(e) = &right
            && is_operator(e)
            && !self.is_placed(e)
        {
            self.places.insert(mark(e), number(self.wires.len()))?;
        }
        Ok(self.wires.push(Wire { width, right })?)
    }

    // Adds wires for what is common among the operands of an expression.
    #[cycle(expressions)]
    fn add_operands(
        &mut self,
        alloc: Global,
        design: &Design,
        counts: &Counts,
        e: &Expr<Net>,
    ) -> Result<(), AllocError> {
        match e {
            Expr::MemoryWord(_, a) | Expr::Unary(_, a) => self.add(alloc, design, counts, a),
            Expr::Binary(_, a, b) => {
                self.add(alloc, design, counts, a)?;
                self.add(alloc, design, counts, b)
            }
            Expr::Conditional(c, a, b) => {
                self.add(alloc, design, counts, c)?;
                self.add(alloc, design, counts, a)?;
                self.add(alloc, design, counts, b)
            }
            Expr::Concatenation(parts) => self.add_parts(alloc, design, counts, parts),
            _ => Ok(()),
        }
    }

    // The same, and one for the expression itself, if it is common.
    #[cycle(expressions)]
    fn add(
        &mut self,
        alloc: Global,
        design: &Design,
        counts: &Counts,
        e: &Expr<Net>,
    ) -> Result<(), AllocError> {
        self.add_operands(alloc, design, counts, e)?;
        if !counts.is_common(e) {
            return Ok(());
        }
        let same = inside(alloc, self, self.wires.len(), e)?;
        if self.is_placed(&same) {
            return Ok(());
        }
        let width = width_of(design, design.wires.len(), e);
        self.push(width, Right::Plain(same))
    }

    #[cycle(expressions)]
    fn add_parts(
        &mut self,
        alloc: Global,
        design: &Design,
        counts: &Counts,
        parts: &Parts<Net>,
    ) -> Result<(), AllocError> {
        let mut left = parts;
        loop {
            match left {
                Parts::Last(last) => return self.add(alloc, design, counts, last),
                Parts::More(part, more) => {
                    self.add(alloc, design, counts, part)?;
                    left = more;
                }
            }
        }
    }
}

/// The table of a design.
pub(crate) fn table_of(
    alloc: Global,
    design: &Design,
    counts: &Counts,
) -> Result<Table, AllocError> {
    let mut table = Table::new(alloc);
    for wire in &design.wires {
        if let Right::Plain(e) = &wire.right {
            table.add_operands(alloc, design, counts, e)?;
        }
        table.numbers.push(number(table.wires.len()))?;
        let right = rewritten_right(alloc, &table, table.wires.len(), &wire.right)?;
        table.push(wire.width, right)?;
    }
    for e in behind_wires(alloc, design)? {
        table.add(alloc, design, counts, e)?;
    }
    Ok(table)
}
