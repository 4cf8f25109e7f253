//! Which registers and wires are set by what reads a net, so that only these are looked at again where it is told apart from others.

use crate::equal_registers::settings::Setting;
use net_core::design::Wire;
use net_core::tree::{Expr, Net, Parts, Right};
use std::alloc::{AllocError, Global};

/// Of each register and of each wire those that are set by what reads it.
#[derive(Drop)]
pub(crate) struct Readers {
    registers: Vec<Vec<Net>>,
    wires: Vec<Vec<Net>>,
}

/// Registers and wires that are to be looked at again.
#[derive(Drop)]
pub(crate) struct Stale {
    registers: Vec<bool>,
    wires: Vec<bool>,
}

impl Stale {
    /// All of them.
    pub(crate) fn all(alloc: Global, registers: usize, wires: usize) -> Result<Stale, AllocError> {
        let registers = vec![in alloc; true; registers]?;
        let wires = vec![in alloc; true; wires]?;
        Ok(Stale { registers, wires })
    }

    /// A net is to be looked at again.
    pub(crate) fn note(&mut self, n: Net) {
        match n {
            Net::Register(k) => set_at(&mut self.registers, k),
            Net::Wire(k) => set_at(&mut self.wires, k),
            Net::Port(_) | Net::Memory(_) => {}
        }
    }

    /// Whether a register was to be looked at again. Then it is no more.
    pub(crate) fn take_register(&mut self, k: usize) -> bool {
        taken(&mut self.registers, k)
    }

    /// Whether a wire was to be looked at again. Then it is no more.
    pub(crate) fn take_wire(&mut self, k: usize) -> bool {
        taken(&mut self.wires, k)
    }
}

fn set_at(flags: &mut [bool], k: u32) {
    if let Some(flag) = flags.get_mut(k as usize) {
        *flag = true;
    }
}

fn taken(flags: &mut [bool], k: usize) -> bool {
    match flags.get_mut(k) {
        Some(flag) if *flag => {
            *flag = false;
            true
        }
        _ => false,
    }
}

fn no_readers(alloc: Global, count: usize) -> Result<Vec<Vec<Net>>, AllocError> {
    let mut lists = Vec::new(alloc);
    for _ in 0..count {
        lists.push(Vec::new(alloc))?;
    }
    Ok(lists)
}

fn add_at(lists: &mut [Vec<Net>], k: u32, by: Net) -> Result<(), AllocError> {
    if let Some(all) = lists.get_mut(k as usize) {
        all.push(by)?;
    }
    Ok(())
}

impl Readers {
    fn add(&mut self, read: Net, by: Net) -> Result<(), AllocError> {
        match read {
            Net::Register(k) => add_at(&mut self.registers, k, by),
            Net::Wire(k) => add_at(&mut self.wires, k, by),
            Net::Port(_) | Net::Memory(_) => Ok(()),
        }
    }

    #[cycle(expressions)]
    fn add_expr(&mut self, e: &Expr<Net>, by: Net) -> Result<(), AllocError> {
        match e {
            Expr::Const(_) => Ok(()),
            Expr::Read(n) | Expr::Bit(n, _) | Expr::PartSelect(n, _, _) => self.add(*n, by),
            Expr::MemoryWord(_, a) | Expr::Unary(_, a) => self.add_expr(a, by),
            Expr::Binary(_, a, b) => {
                self.add_expr(a, by)?;
                self.add_expr(b, by)
            }
            Expr::Conditional(c, a, b) => {
                self.add_expr(c, by)?;
                self.add_expr(a, by)?;
                self.add_expr(b, by)
            }
            Expr::Concatenation(parts) => self.add_parts(parts, by),
        }
    }

    // Without a recursion over the parts: there may be any number.
    #[cycle(expressions)]
    fn add_parts(&mut self, parts: &Parts<Net>, by: Net) -> Result<(), AllocError> {
        let mut left = parts;
        loop {
            match left {
                Parts::Last(a) => return self.add_expr(a, by),
                Parts::More(a, more) => {
                    self.add_expr(a, by)?;
                    left = more;
                }
            }
        }
    }

    fn add_right(&mut self, right: &Right<Net>, by: Net) -> Result<(), AllocError> {
        match right {
            Right::Plain(e) => self.add_expr(e, by),
            Right::Quotient(a, b) | Right::Remainder(a, b) => {
                self.add(*a, by)?;
                self.add(*b, by)
            }
        }
    }

    /// What reads a net is to be looked at again.
    pub(crate) fn note(&self, n: Net, stale: &mut Stale) {
        let found = match n {
            Net::Register(k) => self.registers.get(k as usize),
            Net::Wire(k) => self.wires.get(k as usize),
            Net::Port(_) | Net::Memory(_) => None,
        };
        let Some(all) = found else {
            return;
        };
        for by in all {
            stale.note(*by);
        }
    }
}

/// What reads registers and wires, where these lists have what registers are set to.
pub(crate) fn readers_of(
    alloc: Global,
    wires: &[Wire],
    lists: &[Vec<Setting>],
) -> Result<Readers, AllocError> {
    let mut all = Readers {
        registers: no_readers(alloc, lists.len())?,
        wires: no_readers(alloc, wires.len())?,
    };
    let mut at: u32 = 0;
    for wire in wires {
        all.add_right(&wire.right, Net::Wire(at))?;
        at = at.saturating_add(1);
    }
    for list in lists {
        for setting in list {
            all.add_expr(setting.value, Net::Register(setting.register))?;
        }
    }
    Ok(all)
}
