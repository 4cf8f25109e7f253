//! Numbers by which expressions are told apart fast: those of equal ones are equal.

use crate::tree::{Expr, Net, Parts, Right};

fn mixed(mark: u64, more: u64) -> u64 {
    (mark ^ more)
        .wrapping_mul(1_099_511_628_211)
        .rotate_left(29)
}

fn net_mark(n: Net) -> u64 {
    match n {
        Net::Port(i) => mixed(1, u64::from(i)),
        Net::Register(i) => mixed(2, u64::from(i)),
        Net::Memory(i) => mixed(3, u64::from(i)),
        Net::Wire(i) => mixed(4, u64::from(i)),
    }
}

/// The number of an expression.
#[cycle(mark)]
pub fn mark(e: &Expr<Net>) -> u64 {
    match e {
        Expr::Const(word) => mixed(mixed(5, u64::from(word.width)), word.value),
        Expr::Read(n) => mixed(6, net_mark(*n)),
        Expr::Bit(n, i) => mixed(mixed(7, net_mark(*n)), u64::from(*i)),
        Expr::PartSelect(n, high, low) => {
            let net = mixed(8, net_mark(*n));
            mixed(mixed(net, u64::from(*high)), u64::from(*low))
        }
        Expr::MemoryWord(m, a) => mixed(mixed(9, net_mark(*m)), mark(a)),
        Expr::Unary(op, a) => mixed(mixed(10, *op as u64), mark(a)),
        Expr::Binary(op, a, b) => mixed(mixed(mixed(11, *op as u64), mark(a)), mark(b)),
        Expr::Conditional(c, a, b) => mixed(mixed(mixed(12, mark(c)), mark(a)), mark(b)),
        Expr::Concatenation(parts) => parts_mark(parts),
    }
}

#[cycle(mark)]
fn parts_mark(parts: &Parts<Net>) -> u64 {
    let mut all = 13;
    let mut left = parts;
    loop {
        match left {
            Parts::Last(a) => return mixed(all, mark(a)),
            Parts::More(a, more) => {
                all = mixed(all, mark(a));
                left = more;
            }
        }
    }
}

/// The number of a right side.
pub fn right_mark(right: &Right<Net>) -> u64 {
    match right {
        Right::Plain(e) => mark(e),
        Right::Quotient(a, b) => mixed(mixed(14, net_mark(*a)), net_mark(*b)),
        Right::Remainder(a, b) => mixed(mixed(15, net_mark(*a)), net_mark(*b)),
    }
}
