//! Numbers by which what registers are set to is told apart: those of equal values are equal, as far as is known which registers are equal.

use crate::equal_registers::alike::first;
use crate::equal_registers::settings::Setting;
use net_core::tree::{Expr, Net, Parts, Right};

/// The class of each register, and the marks of wires.
#[derive(Clone, Copy)]
pub(crate) struct Known<'a> {
    pub(crate) registers: &'a [u32],
    pub(crate) wires: &'a [u64],
}

/// One mark of two. Both are spread in ways of their own, since small numbers stand on either side.
pub(crate) fn mixed(mark: u64, more: u64) -> u64 {
    (mark.rotate_left(23) ^ more.wrapping_mul(11_400_714_819_323_198_485))
        .wrapping_mul(13_787_848_793_156_543_929)
        .rotate_left(29)
}

fn net_mark(known: Known, n: Net) -> u64 {
    match n {
        Net::Port(i) => mixed(1, u64::from(i)),
        Net::Register(i) => mixed(2, u64::from(first(known.registers, i))),
        Net::Memory(i) => mixed(3, u64::from(i)),
        Net::Wire(i) => mixed(4, known.wires.get(i as usize).copied().unwrap_or(0)),
    }
}

#[cycle(mark)]
fn mark(known: Known, e: &Expr<Net>) -> u64 {
    match e {
        Expr::Const(word) => mixed(mixed(5, u64::from(word.width)), word.value),
        Expr::Read(n) => mixed(6, net_mark(known, *n)),
        Expr::Bit(n, i) => mixed(mixed(7, net_mark(known, *n)), u64::from(*i)),
        Expr::PartSelect(n, high, low) => {
            let net = mixed(8, net_mark(known, *n));
            mixed(mixed(net, u64::from(*high)), u64::from(*low))
        }
        Expr::MemoryWord(m, a) => mixed(mixed(9, net_mark(known, *m)), mark(known, a)),
        Expr::Unary(op, a) => mixed(mixed(10, *op as u64), mark(known, a)),
        Expr::Binary(op, a, b) => {
            let left = mixed(mixed(11, *op as u64), mark(known, a));
            mixed(left, mark(known, b))
        }
        Expr::Conditional(c, a, b) => {
            let left = mixed(mixed(12, mark(known, c)), mark(known, a));
            mixed(left, mark(known, b))
        }
        Expr::Concatenation(parts) => parts_mark(known, parts),
    }
}

// Without a recursion over the parts: there may be any number.
#[cycle(mark)]
fn parts_mark(known: Known, parts: &Parts<Net>) -> u64 {
    let mut all = 13;
    let mut left = parts;
    loop {
        match left {
            Parts::Last(a) => return mixed(all, mark(known, a)),
            Parts::More(a, more) => {
                all = mixed(all, mark(known, a));
                left = more;
            }
        }
    }
}

/// The mark of a right side.
pub(crate) fn right_mark(known: Known, right: &Right<Net>) -> u64 {
    match right {
        Right::Plain(e) => mark(known, e),
        Right::Quotient(a, b) => mixed(mixed(14, net_mark(known, *a)), net_mark(known, *b)),
        Right::Remainder(a, b) => mixed(mixed(15, net_mark(known, *a)), net_mark(known, *b)),
    }
}

/// The mark of a class, and of what one of its registers is set to and where.
pub(crate) fn set_mark(known: Known, class: u32, list: &[Setting]) -> u64 {
    let mut all = u64::from(class);
    for setting in list {
        let place = mixed(16, setting.place as u64);
        all = mixed(all, mixed(place, mark(known, setting.value)));
    }
    all
}
