//! The width of each tree of a design, and whether its statements are well typed.

ghost use Rattle.std.specs.Prelude.{◌≡◌, ◌==◌, ◌≤◌, length};
ghost use Rattle.net_core.specs.View.{netlist_of, tree_of, trees_of, right_of, statement_of, statements_of};
ghost use Rattle.net_core.specs.Width as width;
ghost use Rattle.net_core.specs.Width.{register_widths, memory_widths, scope_before};

use crate::design::Design;
use crate::scope::{memory_width, net_width, register_width, words_width};
use crate::tree::{Expr, Net, Parts, Right, Stmt, Stmts};
use crate::width::{
    concatenation_width, conditional_width, const_width, memory_word_width, op_width,
    part_select_width, same, same_width, unary_width,
};

/// The width of an expression where so many wires stand before, or 0.
#[cycle(width_of)]
pub fn width_of(design: &Design, before: usize, e: &Expr<Net>) -> u8
    requires { before ≤ length design.now.wires.items }
    ensures { result ≡ width.width_of (scope_before (netlist_of design.now) before) (tree_of e.now) }
{
    match e {
        Expr::Const(w) => const_width(*w),
        Expr::Read(n) => net_width(design, before, *n),
        Expr::Bit(n, i) => part_select_width(net_width(design, before, *n), *i, *i),
        Expr::PartSelect(n, high, low) => part_select_width(
            net_width(design, before, *n),
            *high,
            *low,
        ),
        Expr::MemoryWord(m, i) => {
            let (index, memory_word) = words_width(design, *m);
            memory_word_width(width_of(design, before, i), index, memory_word)
        }
        Expr::Unary(unary_op, a) => unary_width(*unary_op, width_of(design, before, a)),
        Expr::Binary(op, a, b) => {
            let left = width_of(design, before, a);
            let right = width_of(design, before, b);
            op_width(*op, left, right)
        }
        Expr::Conditional(c, a, b) => {
            let condition = width_of(design, before, c);
            let first = width_of(design, before, a);
            let second = width_of(design, before, b);
            conditional_width(condition, first, second)
        }
        Expr::Concatenation(parts) => parts_width(design, before, parts),
    }
}

#[cycle(width_of)]
fn parts_width(design: &Design, before: usize, parts: &Parts<Net>) -> u8
    requires { before ≤ length design.now.wires.items }
    ensures { result ≡ width.parts_width (scope_before (netlist_of design.now) before) (trees_of parts.now) }
{
    match parts {
        Parts::Last(a) => width_of(design, before, a),
        Parts::More(a, more) => {
            let front = width_of(design, before, a);
            width_behind(design, before, front, more)
        }
    }
}

// The width of a concatenation of these parts after others, whose widths are so many together.
#[cycle(width_of)]
fn width_behind(design: &Design, before: usize, front: u8, parts: &Parts<Net>) -> u8
    requires { before ≤ length design.now.wires.items }
    ensures { result ≡ width.concatenation_width front (width.parts_width (scope_before (netlist_of design.now) before) (trees_of parts.now)) }
{
    let mut sum = front;
    let mut left = parts;
    loop {
        match left {
            Parts::Last(a) => return concatenation_width(sum, width_of(design, before, a)),
            Parts::More(a, more) => {
                sum = concatenation_width(sum, width_of(design, before, a));
                left = more;
            }
        }
    }
}

/// The width of the right side of a wire, or 0.
pub fn right_width(design: &Design, before: usize, right: &Right<Net>) -> u8
    requires { before ≤ length design.now.wires.items }
    ensures { result ≡ width.right_width (scope_before (netlist_of design.now) before) (right_of right.now) }
{
    match right {
        Right::Plain(e) => width_of(design, before, e),
        Right::Quotient(a, b) | Right::Remainder(a, b) => same_width(
            net_width(design, before, *a),
            net_width(design, before, *b),
        ),
    }
}

/// Whether a condition has width 1.
fn is_condition(design: &Design, before: usize, c: &Expr<Net>) -> bool
    requires { before ≤ length design.now.wires.items }
    ensures { result ≡ (width.width_of (scope_before (netlist_of design.now) before) (tree_of c.now) == 1) }
{
    width_of(design, before, c) == 1
}

/// Whether conditions have width 1, and both sides of each assignment one width.
#[cycle(stmt_typed)]
pub fn stmt_typed(design: &Design, before: usize, stmt: &Stmt<Net>) -> bool
    requires { before ≤ length design.now.wires.items }
    ensures { result ≡ width.statement_typed (scope_before (netlist_of design.now) before) (register_widths design.now.declared.items) (memory_widths design.now.declared.items) (statement_of stmt.now) }
{
    match stmt {
        Stmt::Block(more) => stmts_typed(design, before, more),
        Stmt::If(c, a) => is_condition(design, before, c) && stmt_typed(design, before, a),
        Stmt::IfElse(c, a, b) => {
            is_condition(design, before, c)
                & (stmt_typed(design, before, a) & stmt_typed(design, before, b))
        }
        Stmt::Set(r, e) => same(
            register_width(&design.declared, *r),
            width_of(design, before, e),
        ),
        Stmt::Store(m, i, e) => {
            let (index, memory_word) = memory_width(&design.declared, *m);
            same(index, width_of(design, before, i))
                && same(memory_word, width_of(design, before, e))
        }
    }
}

#[cycle(stmt_typed)]
fn stmts_typed(design: &Design, before: usize, stmts: &Stmts<Net>) -> bool
    requires { before ≤ length design.now.wires.items }
    ensures { result ≡ width.statements_typed (scope_before (netlist_of design.now) before) (register_widths design.now.declared.items) (memory_widths design.now.declared.items) (statements_of stmts.now) }
{
    let mut left = stmts;
    while let Stmts::Then(a, more) = left {
        if !stmt_typed(design, before, a) {
            return false;
        }
        left = more;
    }
    true
}
