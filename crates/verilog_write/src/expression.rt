//! Expressions, and the right sides of wires.

ghost use Rattle.std.specs.Prelude.{◌≡◌, ◌∷◌, [], OnOk};
ghost use Rattle.net_core.specs.Names.{name_of};
ghost use Rattle.net_core.specs.View.{netlist_of, tree_of, trees_of, right_of};
ghost use Rattle.net_core.specs.Width.{Fits};
ghost use Rattle.verilog_write.specs.VerilogGrammar.Grammar as grammar;
ghost use Rattle.verilog_write.specs.VerilogGrammar.Grammar.{unary_symbol, tree_lexemes, parts_lexemes, right_lexemes};
ghost use Rattle.verilog_lex.specs.Lexeme.{LName, LNumber, LSymbol};
ghost use Rattle.verilog_lex.specs.declared.token.Symbol.TheVariants as symbol;
ghost use Rattle.verilog_write.specs.Adds.{AddsWord, AddsLine};
ghost use Rattle.verilog_write.specs.Writable.{IsNamed, IsWritable, AreWritable, IsRightWritable};

use crate::names::{Names, net_name};
use crate::spaced::{push_apart, push_operator, push_span};
use net_core::tree::{Expr, Net, Op, Parts, Right, UnaryOp, Word};
use std::alloc::AllocError;
use verilog_lex::{Symbol, push_name, push_number, push_sized, push_symbol};

/// The symbol of an operator.
fn op_symbol(op: Op) -> Symbol
    ensures { result ≡ grammar.op_symbol op }
{
    match op {
        Op::Add => Symbol::Plus,
        Op::Sub => Symbol::Minus,
        Op::Mul => Symbol::Star,
        Op::And => Symbol::And,
        Op::Or => Symbol::Or,
        Op::Xor => Symbol::Xor,
        Op::ShiftLeft => Symbol::ShiftLeft,
        Op::ShiftRight => Symbol::ShiftRight,
        Op::Equal => Symbol::Equal,
        Op::NotEqual => Symbol::NotEqual,
        Op::Less => Symbol::Less,
        Op::LessEqual => Symbol::LessEqual,
        Op::Greater => Symbol::Greater,
        Op::GreaterEqual => Symbol::GreaterEqual,
    }
}

/// Adds a constant.
#[tactic(auto, using(crate::proofs::Words::fits_size_of))]
pub fn push_word(text: &mut Vec<u8>, word: Word) -> Result<(), AllocError>
    requires { Fits word }
    ensures { OnOk result (AddsWord text.old.items text.new.items (grammar.constant word ∷ [])) }
{
    push_sized(text, word.width, word.value)
}

/// Adds the name of a net.
pub fn push_net(text: &mut Vec<u8>, names: &Names, net: Net) -> Result<(), AllocError>
    requires { IsNamed (netlist_of names.now.design.now) net }
    ensures { OnOk result (AddsWord text.old.items text.new.items (LName (name_of (netlist_of names.now.design.now) net) ∷ [])) }
{
    push_name(text, net_name(names, net))
}

/// Adds one bit of a net.
fn push_bit(text: &mut Vec<u8>, names: &Names, net: Net, bit: u8) -> Result<(), AllocError>
    requires { IsNamed (netlist_of names.now.design.now) net }
    ensures { OnOk result (AddsWord text.old.items text.new.items (LName (name_of (netlist_of names.now.design.now) net) ∷ LSymbol symbol.OpenBracket ∷ LNumber bit ∷ LSymbol symbol.CloseBracket ∷ [])) }
{
    push_net(text, names, net)?;
    push_symbol(text, Symbol::OpenBracket)?;
    push_number(text, bit as u32)?;
    push_symbol(text, Symbol::CloseBracket)
}

/// Adds the bits of a net from a high one down to a low one.
fn push_part_select(
    text: &mut Vec<u8>,
    names: &Names,
    net: Net,
    high: u8,
    low: u8,
) -> Result<(), AllocError>
    requires { IsNamed (netlist_of names.now.design.now) net }
    ensures { OnOk result (AddsWord text.old.items text.new.items (LName (name_of (netlist_of names.now.design.now) net) ∷ LSymbol symbol.OpenBracket ∷ LNumber high ∷ LSymbol symbol.Colon ∷ LNumber low ∷ LSymbol symbol.CloseBracket ∷ [])) }
{
    push_net(text, names, net)?;
    push_span(text, high as u32, low as u32)
}

/// Adds a prefix operator, with a space before `|`.
fn push_unary(text: &mut Vec<u8>, unary_op: UnaryOp) -> Result<(), AllocError>
    ensures { OnOk result (AddsLine text.old.items text.new.items (LSymbol (unary_symbol unary_op) ∷ [])) }
{
    match unary_op {
        UnaryOp::Not => push_symbol(text, Symbol::Not),
        UnaryOp::ReduceOr => {
            push_apart(text)?;
            push_symbol(text, Symbol::Or)
        }
    }
}

/// Adds an expression to a closed text.
#[cycle(expression)]
pub fn push_expression(text: &mut Vec<u8>, names: &Names, e: &Expr<Net>) -> Result<(), AllocError>
    requires { IsWritable (netlist_of names.now.design.now) (tree_of e.now) }
    ensures { OnOk result (AddsWord text.old.items text.new.items (tree_lexemes (name_of (netlist_of names.now.design.now)) (tree_of e.now))) }
{
    match e {
        Expr::Const(word) => push_word(text, *word),
        Expr::Read(net) => push_net(text, names, *net),
        Expr::Bit(net, bit) => push_bit(text, names, *net, *bit),
        Expr::PartSelect(net, high, low) => push_part_select(text, names, *net, *high, *low),
        Expr::MemoryWord(memory, index) => {
            push_net(text, names, *memory)?;
            push_symbol(text, Symbol::OpenBracket)?;
            push_expression(text, names, index)?;
            push_symbol(text, Symbol::CloseBracket)
        }
        Expr::Unary(unary_op, a) => {
            push_unary(text, *unary_op)?;
            push_expression(text, names, a)
        }
        Expr::Binary(op, a, b) => {
            push_symbol(text, Symbol::OpenParenthesis)?;
            push_expression(text, names, a)?;
            push_operator(text, op_symbol(*op))?;
            push_expression(text, names, b)?;
            push_symbol(text, Symbol::CloseParenthesis)
        }
        Expr::Conditional(c, a, b) => {
            push_symbol(text, Symbol::OpenParenthesis)?;
            push_expression(text, names, c)?;
            push_operator(text, Symbol::Question)?;
            push_expression(text, names, a)?;
            push_operator(text, Symbol::Colon)?;
            push_expression(text, names, b)?;
            push_symbol(text, Symbol::CloseParenthesis)
        }
        Expr::Concatenation(parts) => {
            push_symbol(text, Symbol::OpenBrace)?;
            push_parts(text, names, parts)?;
            push_symbol(text, Symbol::CloseBrace)
        }
    }
}

/// Adds the parts of a concatenation.
#[cycle(expression)]
fn push_parts(text: &mut Vec<u8>, names: &Names, parts: &Parts<Net>) -> Result<(), AllocError>
    requires { AreWritable (netlist_of names.now.design.now) (trees_of parts.now) }
    ensures { OnOk result (AddsWord text.old.items text.new.items (parts_lexemes (name_of (netlist_of names.now.design.now)) (trees_of parts.now))) }
{
    let mut left = parts;
    loop {
        match left {
            Parts::Last(a) => return push_expression(text, names, a),
            Parts::More(a, more) => {
                push_expression(text, names, a)?;
                push_symbol(text, Symbol::Comma)?;
                push_apart(text)?;
                left = more;
            }
        }
    }
}

/// Adds two nets with an operator between.
fn push_divided(
    text: &mut Vec<u8>,
    names: &Names,
    a: Net,
    operator: Symbol,
    b: Net,
) -> Result<(), AllocError>
    requires left { IsNamed (netlist_of names.now.design.now) a }
    requires right { IsNamed (netlist_of names.now.design.now) b }
    ensures { OnOk result (AddsWord text.old.items text.new.items (LName (name_of (netlist_of names.now.design.now) a) ∷ LSymbol operator ∷ LName (name_of (netlist_of names.now.design.now) b) ∷ [])) }
{
    push_net(text, names, a)?;
    push_operator(text, operator)?;
    push_net(text, names, b)
}

/// Adds the right side of a wire.
pub fn push_right(text: &mut Vec<u8>, names: &Names, right: &Right<Net>) -> Result<(), AllocError>
    requires { IsRightWritable (netlist_of names.now.design.now) (right_of right.now) }
    ensures { OnOk result (AddsWord text.old.items text.new.items (right_lexemes (name_of (netlist_of names.now.design.now)) (right_of right.now))) }
{
    match right {
        Right::Plain(e) => push_expression(text, names, e),
        Right::Quotient(a, b) => push_divided(text, names, *a, Symbol::Slash, *b),
        Right::Remainder(a, b) => push_divided(text, names, *a, Symbol::Percent, *b),
    }
}
