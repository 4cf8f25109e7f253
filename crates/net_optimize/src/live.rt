//! Wires and registers on which outputs, memories and stops depend.

use crate::sections::Sections;
use crate::sources::{Sources, sources_of};
use net_core::design::Wire;
use net_core::tree::{Expr, Net, Parts, Right};
use std::alloc::{AllocError, Global};

// The number of no net.
const NONE: u32 = u32::MAX;

// Which nets are read. Those whose sources are yet to be looked at are linked, the last one first.
#[derive(Drop)]
struct Reached {
    are_read: Vec<bool>,
    last: u32,
    // Behind each net that is linked the next one.
    behind: Vec<u32>,
}

impl Reached {
    fn none(alloc: Global, count: usize) -> Result<Reached, AllocError> {
        Ok(Reached {
            are_read: vec![in alloc; false; count]?,
            last: NONE,
            behind: vec![in alloc; NONE; count]?,
        })
    }

    fn has(&self, k: usize) -> bool {
        self.are_read.get(k).copied().unwrap_or(false)
    }

    fn add(&mut self, k: u32) {
        let at = k as usize;
        match self.are_read.get_mut(at) {
            Some(is_read) if !*is_read => *is_read = true,
            _ => return,
        }
        let last = self.last;
        if let Some(behind) = self.behind.get_mut(at) {
            *behind = last;
        }
        self.last = k;
    }

    // The last net that is linked, and is so no more.
    fn take(&mut self) -> usize {
        let at = self.last as usize;
        self.last = self.behind.get(at).copied().unwrap_or(NONE);
        at
    }
}

/// Which wires and registers are read by what has to stay. A register is read as the first of those that hold the same.
#[derive(Drop)]
pub(crate) struct Live {
    wires: Reached,
    registers: Reached,
    firsts: Vec<u32>,
}

impl Live {
    /// Whether a wire has to stay.
    pub(crate) fn has_wire(&self, wire: usize) -> bool {
        self.wires.has(wire)
    }

    /// Whether a register has to stay.
    pub(crate) fn has_register(&self, register: usize) -> bool {
        self.registers.has(register)
    }

    fn read(&mut self, n: Net) {
        match n {
            Net::Wire(i) => self.wires.add(i),
            Net::Register(i) => {
                let first = self.firsts.get(i as usize).copied().unwrap_or(i);
                self.registers.add(first);
            }
            Net::Port(_) | Net::Memory(_) => {}
        }
    }

    #[cycle(expressions)]
    fn read_expr(&mut self, e: &Expr<Net>) {
        match e {
            Expr::Const(_) => {}
            Expr::Read(n) | Expr::Bit(n, _) | Expr::PartSelect(n, _, _) => self.read(*n),
            Expr::MemoryWord(_, a) | Expr::Unary(_, a) => self.read_expr(a),
            Expr::Binary(_, a, b) => {
                self.read_expr(a);
                self.read_expr(b);
            }
            Expr::Conditional(c, a, b) => {
                self.read_expr(c);
                self.read_expr(a);
                self.read_expr(b);
            }
            Expr::Concatenation(parts) => self.read_parts(parts),
        }
    }

    #[cycle(expressions)]
    fn read_parts(&mut self, parts: &Parts<Net>) {
        let mut left = parts;
        loop {
            match left {
                Parts::Last(a) => {
                    self.read_expr(a);
                    return;
                }
                Parts::More(a, more) => {
                    self.read_expr(a);
                    left = more;
                }
            }
        }
    }

    fn read_right(&mut self, right: &Right<Net>) {
        match right {
            Right::Plain(e) => self.read_expr(e),
            Right::Quotient(a, b) | Right::Remainder(a, b) => {
                self.read(*a);
                self.read(*b);
            }
        }
    }

    // Each wire is looked at once.
    fn read_wires(&mut self, wires: &[Wire]) {
        for _ in 0..wires.len() {
            let Some(wire) = wires.get(self.wires.take()) else {
                return;
            };
            self.read_right(&wire.right);
        }
    }

    // What outputs show, what memories hold, and what may stop the clock.
    fn begin(&mut self, sections: &Sections, memories: &[&Expr<Net>]) {
        let mut at = 0;
        for wire in &sections.wires {
            if !matches!(wire.right, Right::Plain(_)) {
                self.wires.add(at);
            }
            at = at.saturating_add(1);
        }
        for assign in &sections.assigns {
            self.read_expr(&assign.value);
        }
        for e in memories {
            self.read_expr(*e);
        }
    }

    // Each register is looked at once, when the wires that are read are looked at.
    fn read_sources(&mut self, wires: &[Wire], sources: &Sources) {
        for _ in 0..sources.registers.len() {
            self.read_wires(wires);
            let Some(all) = sources.registers.get(self.registers.take()) else {
                return;
            };
            for e in all {
                self.read_expr(*e);
            }
        }
        self.read_wires(wires);
    }
}

/// What has to stay of the wires and registers of these sections, in time of their length.
pub(crate) fn live_nets(
    alloc: Global,
    sections: &Sections,
    registers: usize,
    firsts: &[u32],
) -> Result<Live, AllocError> {
    let sources = sources_of(alloc, &sections.always, registers)?;
    let mut live = Live {
        wires: Reached::none(alloc, sections.wires.len())?,
        registers: Reached::none(alloc, registers)?,
        firsts: Vec::from_slice(alloc, firsts)?,
    };
    live.begin(sections, &sources.memories);
    live.read_sources(&sections.wires, &sources);
    Ok(live)
}
