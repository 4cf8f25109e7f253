//! How deep expressions nest.

use net_core::tree::{Expr, Net, Parts};

/// How deep an expression nests: a net or a constant has depth 1.
#[cycle(depth)]
pub(crate) fn depth(e: &Expr<Net>) -> u32 {
    let inside = match e {
        Expr::Const(_) | Expr::Read(_) | Expr::Bit(..) | Expr::PartSelect(..) => 0,
        Expr::MemoryWord(_, a) | Expr::Unary(_, a) => depth(a),
        Expr::Binary(_, a, b) => depth(a).max(depth(b)),
        Expr::Conditional(c, a, b) => depth(c).max(depth(a)).max(depth(b)),
        Expr::Concatenation(parts) => parts_depth(parts),
    };
    inside.saturating_add(1)
}

#[cycle(depth)]
fn parts_depth(parts: &Parts<Net>) -> u32 {
    let mut most = 0;
    let mut left = parts;
    loop {
        match left {
            Parts::Last(a) => return depth(a).max(most),
            Parts::More(a, more) => {
                most = depth(a).max(most);
                left = more;
            }
        }
    }
}
