//! Expressions, read from left to right, each with its width.

ghost use Rattle.std.specs.Prelude.{◌≡◌, length, true, false};
ghost use Rattle.verilog_expression.specs.Expressions as phrase;
ghost use Rattle.verilog_expression.specs.Expressions.{memory_word_at, expr_at, first_at, unary_at, concatenation_at, named_at, paren_at, parts_at, second_at, symbol_first, whole_expr_at};
ghost use Rattle.verilog_expression.specs.View.{Gives, as_sized, capped, parts_of, lexemes_left, sized_of};

use crate::entry::Entry;
use crate::error::PhraseError;
use crate::fault::Code;
use crate::lexemes::{fault, operator, symbol};
use crate::lookahead::{begins_number, comma};
use crate::names::{Names, entry};
use crate::rest::Rest;
use crate::value::{behind_value, constant_expr, sized};
use net_core::build::{self, binary, conditional, memory_word, unary};
use net_core::tree::{Expr, Net, Parts, UnaryOp};
use net_core::width::{conditional_width, memory_word_width, op_width, unary_width};
use std::alloc::{AllocError, Global};
use verilog_lex::{Symbol, Token, TokenKind};

/// How deep expressions and statements nest.
pub(crate) const MOST_DEPTH: u8 = 64;

/// An expression of at most this depth. It may begin with a prefix operator where `any` says so.
#[cycle(reader)]
#[tactic(auto, unfolding(crate::specs::Expressions::expr_at))]
fn expr<'a, N: Names>(
    alloc: Global,
    names: &N,
    depth: u8,
    any: bool,
    rest: Rest<'a>,
) -> Result<(Expr<Net>, u8, Rest<'a>), PhraseError>
    ensures { Gives sized_of result (expr_at (N.names names.now) depth any (lexemes_left rest.entry)) }
{
    if depth == 0 {
        return fault(Code::Syntax, rest);
    }
    first(alloc, names, depth - 1, any, rest)
}

#[cycle(reader)]
#[tactic(auto, unfolding(crate::specs::Expressions::first_at))]
fn first<'a, N: Names>(
    alloc: Global,
    names: &N,
    depth: u8,
    any: bool,
    rest: Rest<'a>,
) -> Result<(Expr<Net>, u8, Rest<'a>), PhraseError>
    ensures { Gives sized_of result (first_at (N.names names.now) any (expr_at (N.names names.now) depth false) (expr_at (N.names names.now) depth true) (lexemes_left rest.entry)) }
{
    match rest.tokens {
        [Token { kind, .. }, tokens @ ..] => match kind {
            TokenKind::Sized(_, _) | TokenKind::OutOfRange => constant_expr(rest),
            TokenKind::Name => {
                let (entry, after) = entry(names, rest)?;
                named(alloc, names, depth, rest, entry, after)
            }
            TokenKind::Symbol(symbol) => {
                let after = Rest { tokens, ..rest };
                behind_symbol(alloc, names, depth, any, *symbol, rest, after)
            }
            _ => fault(Code::Syntax, rest),
        },
        [] => fault(Code::Syntax, rest),
    }
}

// After the symbol that an expression begins with: it is the first of the tokens `own`.
#[cycle(reader)]
#[tactic(auto, unfolding(crate::specs::Expressions::symbol_first))]
fn behind_symbol<'a, N: Names>(
    alloc: Global,
    names: &N,
    depth: u8,
    any: bool,
    symbol: Symbol,
    own: Rest<'a>,
    rest: Rest<'a>,
) -> Result<(Expr<Net>, u8, Rest<'a>), PhraseError>
    ensures { Gives sized_of result (symbol_first any (expr_at (N.names names.now) depth false) (expr_at (N.names names.now) depth true) symbol (lexemes_left own.entry) (lexemes_left rest.entry)) }
{
    match symbol {
        Symbol::Not => unary_expression(alloc, names, depth, any, UnaryOp::Not, own, rest),
        Symbol::Or => unary_expression(alloc, names, depth, any, UnaryOp::ReduceOr, own, rest),
        Symbol::OpenParenthesis => paren(alloc, names, depth, rest),
        Symbol::OpenBrace => concatenation(alloc, names, depth, rest),
        _ => fault(Code::Syntax, own),
    }
}

// After a name: it is the first of the tokens `own`.
#[cycle(reader)]
#[tactic(auto, unfolding(crate::specs::Expressions::named_at))]
fn named<'a, N: Names>(
    alloc: Global,
    names: &N,
    depth: u8,
    own: Rest<'a>,
    entry: Entry,
    rest: Rest<'a>,
) -> Result<(Expr<Net>, u8, Rest<'a>), PhraseError>
    ensures { Gives sized_of result (named_at (expr_at (N.names names.now) depth true) (lexemes_left own.entry) entry (lexemes_left rest.entry)) }
{
    match entry {
        Entry::Value { net, width } => behind_value(own, net, width, rest),
        Entry::Words {
            memory,
            index,
            width,
        } => behind_words(alloc, names, depth, own, memory, index, width, rest),
        _ => fault(Code::Unknown, own),
    }
}

// After the name of a memory: it is the first of the tokens `own`.
#[cycle(reader)]
#[tactic(auto, unfolding(crate::specs::Expressions::named_at))]
fn behind_words<'a, N: Names>(
    alloc: Global,
    names: &N,
    depth: u8,
    own: Rest<'a>,
    memory: u32,
    index: u8,
    width: u8,
    rest: Rest<'a>,
) -> Result<(Expr<Net>, u8, Rest<'a>), PhraseError>
    ensures { Gives sized_of result (named_at (expr_at (N.names names.now) depth true) (lexemes_left own.entry) (Entry.Words memory index width) (lexemes_left rest.entry)) }
{
    match rest.tokens {
        [
            Token {
                kind: TokenKind::Symbol(Symbol::OpenBracket),
                ..
            },
            tokens @ ..,
        ] => {
            let rest = Rest { tokens, ..rest };
            if begins_number(rest) {
                return fault(Code::Unknown, own);
            }
            in_words(alloc, names, depth, memory, index, width, rest)
        }
        _ => fault(Code::Unknown, own),
    }
}

// In the brackets after the name of a memory.
#[cycle(reader)]
#[tactic(auto, unfolding(crate::specs::Expressions::memory_word_at))]
fn in_words<'a, N: Names>(
    alloc: Global,
    names: &N,
    depth: u8,
    memory: u32,
    index: u8,
    width: u8,
    rest: Rest<'a>,
) -> Result<(Expr<Net>, u8, Rest<'a>), PhraseError>
    ensures { Gives sized_of result (memory_word_at (expr_at (N.names names.now) depth true) memory index width (lexemes_left rest.entry)) }
{
    let (at, bits, ends) = expr(alloc, names, depth, true, rest)?;
    let rest = symbol(Symbol::CloseBracket, ends)?;
    let word = memory_word(alloc, Net::Memory(memory), at)?;
    sized(word, memory_word_width(bits, index, width), rest, ends)
}

// After a prefix operator: it is the first of the tokens `own`.
#[cycle(reader)]
#[tactic(auto, unfolding(crate::specs::Expressions::unary_at))]
fn unary_expression<'a, N: Names>(
    alloc: Global,
    names: &N,
    depth: u8,
    any: bool,
    unary_op: UnaryOp,
    own: Rest<'a>,
    rest: Rest<'a>,
) -> Result<(Expr<Net>, u8, Rest<'a>), PhraseError>
    ensures { Gives sized_of result (unary_at any unary_op (expr_at (N.names names.now) depth false) (lexemes_left own.entry) (lexemes_left rest.entry)) }
{
    if !any {
        return fault(Code::Syntax, own);
    }
    let (operand, width, rest) = expr(alloc, names, depth, false, rest)?;
    let tree = unary(alloc, unary_op, operand)?;
    Ok((tree, unary_width(unary_op, width), rest))
}

#[cycle(reader)]
#[tactic(auto, unfolding(crate::specs::Expressions::paren_at))]
fn paren<'a, N: Names>(
    alloc: Global,
    names: &N,
    depth: u8,
    rest: Rest<'a>,
) -> Result<(Expr<Net>, u8, Rest<'a>), PhraseError>
    ensures { Gives sized_of result (paren_at (expr_at (N.names names.now) depth true) (lexemes_left rest.entry)) }
{
    let (first, width, rest) = expr(alloc, names, depth, true, rest)?;
    second(alloc, names, depth, first, width, rest)
}

// After a parenthesis and its first expression: a choice, or an operator between two operands.
#[cycle(reader)]
#[tactic(auto, unfolding(crate::specs::Expressions::second_at))]
fn second<'a, N: Names>(
    alloc: Global,
    names: &N,
    depth: u8,
    first: Expr<Net>,
    width: u8,
    rest: Rest<'a>,
) -> Result<(Expr<Net>, u8, Rest<'a>), PhraseError>
    ensures { Gives sized_of result (second_at (expr_at (N.names names.now) depth true) (as_sized first width) (lexemes_left rest.entry)) }
{
    match rest.tokens {
        [
            Token {
                kind: TokenKind::Symbol(Symbol::Question),
                ..
            },
            tokens @ ..,
        ] => {
            let rest = Rest { tokens, ..rest };
            let (a, left, rest) = expr(alloc, names, depth, true, rest)?;
            let rest = symbol(Symbol::Colon, rest)?;
            let (b, right, ends) = expr(alloc, names, depth, true, rest)?;
            let rest = symbol(Symbol::CloseParenthesis, ends)?;
            let tree = conditional(alloc, first, a, b)?;
            sized(tree, conditional_width(width, left, right), rest, ends)
        }
        _ => {
            let (op, rest) = operator(rest)?;
            let (b, right, ends) = expr(alloc, names, depth, true, rest)?;
            let rest = symbol(Symbol::CloseParenthesis, ends)?;
            let tree = binary(alloc, op, first, b)?;
            sized(tree, op_width(op, width, right), rest, ends)
        }
    }
}

// The width of a concatenation from the sum of its parts' widths: at most 64, and else none.
fn whole_width(sum: u8) -> u8
    ensures { result ≡ phrase.whole_width sum }
{
    if sum <= 64 { sum } else { 0 }
}

#[cycle(reader)]
#[tactic(auto, unfolding(crate::specs::Expressions::concatenation_at))]
fn concatenation<'a, N: Names>(
    alloc: Global,
    names: &N,
    depth: u8,
    rest: Rest<'a>,
) -> Result<(Expr<Net>, u8, Rest<'a>), PhraseError>
    ensures { Gives sized_of result (concatenation_at (expr_at (N.names names.now) depth true) (lexemes_left rest.entry)) }
{
    let (list, sum, ends) = parts(alloc, names, depth, rest)?;
    let rest = symbol(Symbol::CloseBrace, ends)?;
    let tree = Expr::Concatenation(Box::new(alloc, list)?);
    sized(tree, whole_width(sum), rest, ends)
}

// The parts of a concatenation, and the sum of their widths or 255 where it is more. There is no recursion over them: there
// may be as many as the text is long.
#[cycle(reader)]
fn parts<'a, N: Names>(
    alloc: Global,
    names: &N,
    depth: u8,
    rest: Rest<'a>,
) -> Result<(Parts<Net>, u8, Rest<'a>), PhraseError>
    ensures { Gives parts_of result (capped (parts_at (expr_at (N.names names.now) depth true) (length (lexemes_left rest.entry)) (lexemes_left rest.entry))) }
{
    let mut prefix = Vec::new(alloc);
    let mut sum: u8 = 0;
    let mut left = rest.tokens.len();
    let mut after = rest;
    while left > 0 {
        let (part, width, rest) = expr(alloc, names, depth, true, after)?;
        sum = sum.saturating_add(width);
        let Some(next) = comma(rest) else {
            let list = build::parts(alloc, prefix, part)?;
            return Ok((list, sum, rest));
        };
        prefix.push(part)?;
        after = next;
        left -= 1;
    }
    fault(Code::Syntax, after)
}

/// The expression in front of what is left, its width in bits, and what is left after it. It is the first fault that is
/// returned, unless memory runs out.
#[tactic(auto, unfolding(crate::specs::Expressions::whole_expr_at))]
pub fn expression<'a, N: Names>(
    alloc: Global,
    names: &N,
    rest: Rest<'a>,
) -> Result<(Expr<Net>, u8, Rest<'a>), PhraseError>
    ensures { Gives sized_of result (whole_expr_at (N.names names.now) (lexemes_left rest.entry)) }
{
    expr(alloc, names, MOST_DEPTH, true, rest)
}
