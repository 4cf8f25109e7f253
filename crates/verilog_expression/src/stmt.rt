//! Statements, read from left to right.

ghost use Rattle.std.specs.Prelude.{◌≡◌, length};
ghost use Rattle.net_core.specs.View.{tree_of, statement_of};
ghost use Rattle.verilog_expression.specs.Expressions.{whole_expr_at};
ghost use Rattle.verilog_expression.specs.View.{Gives, statement_and_rest, statements_and_rest, lexemes_left, tree_and_rest};
ghost use Rattle.verilog_expression.specs.Statements.{one_statement_at, begin_at, block_at, condition_at, else_at, if_at, statement_at, whole_statement_at};

use crate::error::PhraseError;
use crate::expr::{MOST_DEPTH, expression};
use crate::fault::Code;
use crate::lexemes::{fault, symbol};
use crate::lookahead::block_end;
use crate::names::{Names, entry};
use crate::rest::Rest;
use crate::target::target;
use net_core::build::{block, statements, when, when_else};
use net_core::tree::{Expr, Net, Stmt, Stmts};
use std::alloc::{AllocError, Global};
use verilog_lex::{Keyword, Symbol, Token, TokenKind};

// A condition of one bit, in its parentheses.
#[tactic(auto, unfolding(crate::specs::Statements::condition_at))]
fn condition<'a, N: Names>(
    alloc: Global,
    names: &N,
    rest: Rest<'a>,
) -> Result<(Expr<Net>, Rest<'a>), PhraseError>
    ensures { Gives tree_and_rest result (condition_at (whole_expr_at (N.names names.now)) (lexemes_left rest.entry)) }
{
    let rest = symbol(Symbol::OpenParenthesis, rest)?;
    let (condition, width, ends) = expression(alloc, names, rest)?;
    let rest = symbol(Symbol::CloseParenthesis, ends)?;
    if width == 1 {
        Ok((condition, rest))
    } else {
        fault(Code::Width, ends)
    }
}

/// A statement of at most this depth.
#[cycle(statement)]
#[tactic(auto, unfolding(crate::specs::Statements::statement_at))]
fn stmt<'a, N: Names>(
    alloc: Global,
    names: &N,
    depth: u8,
    rest: Rest<'a>,
) -> Result<(Stmt<Net>, Rest<'a>), PhraseError>
    ensures { Gives statement_and_rest result (statement_at (N.names names.now) (N.free names.now) depth (lexemes_left rest.entry)) }
{
    if depth == 0 {
        return fault(Code::Syntax, rest);
    }
    one_statement(alloc, names, depth - 1, rest)
}

#[cycle(statement)]
#[tactic(auto, unfolding(crate::specs::Statements::one_statement_at))]
fn one_statement<'a, N: Names>(
    alloc: Global,
    names: &N,
    depth: u8,
    rest: Rest<'a>,
) -> Result<(Stmt<Net>, Rest<'a>), PhraseError>
    ensures { Gives statement_and_rest result (one_statement_at (N.names names.now) (N.free names.now) (whole_expr_at (N.names names.now)) (statement_at (N.names names.now) (N.free names.now) depth) (lexemes_left rest.entry)) }
{
    match rest.tokens {
        [
            Token {
                kind: TokenKind::Keyword(Keyword::Begin),
                ..
            },
            tokens @ ..,
        ] => begin(alloc, names, depth, Rest { tokens, ..rest }),
        [
            Token {
                kind: TokenKind::Keyword(Keyword::If),
                ..
            },
            tokens @ ..,
        ] => choice(alloc, names, depth, Rest { tokens, ..rest }),
        [
            Token {
                kind: TokenKind::Name,
                ..
            },
            ..
        ] => {
            let (entry, after) = entry(names, rest)?;
            target(alloc, names, rest, entry, after)
        }
        _ => fault(Code::Syntax, rest),
    }
}

// After `if`.
#[cycle(statement)]
#[tactic(auto, unfolding(crate::specs::Statements::if_at))]
fn choice<'a, N: Names>(
    alloc: Global,
    names: &N,
    depth: u8,
    rest: Rest<'a>,
) -> Result<(Stmt<Net>, Rest<'a>), PhraseError>
    ensures { Gives statement_and_rest result (if_at (whole_expr_at (N.names names.now)) (statement_at (N.names names.now) (N.free names.now) depth) (lexemes_left rest.entry)) }
{
    let (condition, rest) = condition(alloc, names, rest)?;
    let (first, rest) = stmt(alloc, names, depth, rest)?;
    branch(alloc, names, depth, condition, first, rest)
}

// After the first branch of an `if`.
#[cycle(statement)]
#[tactic(auto, unfolding(crate::specs::Statements::else_at))]
fn branch<'a, N: Names>(
    alloc: Global,
    names: &N,
    depth: u8,
    condition: Expr<Net>,
    first: Stmt<Net>,
    rest: Rest<'a>,
) -> Result<(Stmt<Net>, Rest<'a>), PhraseError>
    ensures { Gives statement_and_rest result (else_at (statement_at (N.names names.now) (N.free names.now) depth) (tree_of condition) (statement_of first) (lexemes_left rest.entry)) }
{
    match rest.tokens {
        [
            Token {
                kind: TokenKind::Keyword(Keyword::Else),
                ..
            },
            tokens @ ..,
        ] => {
            let rest = Rest { tokens, ..rest };
            let (second, rest) = stmt(alloc, names, depth, rest)?;
            Ok((when_else(alloc, condition, first, second)?, rest))
        }
        _ => Ok((when(alloc, condition, first)?, rest)),
    }
}

// After `begin`.
#[cycle(statement)]
#[tactic(auto, unfolding(crate::specs::Statements::begin_at))]
fn begin<'a, N: Names>(
    alloc: Global,
    names: &N,
    depth: u8,
    rest: Rest<'a>,
) -> Result<(Stmt<Net>, Rest<'a>), PhraseError>
    ensures { Gives statement_and_rest result (begin_at (statement_at (N.names names.now) (N.free names.now) depth) (lexemes_left rest.entry)) }
{
    let (statements, rest) = list(alloc, names, depth, rest)?;
    Ok((block(alloc, statements)?, rest))
}

// The statements up to `end`, without a recursion over them: there may be as many as the text is long.
#[cycle(statement)]
fn list<'a, N: Names>(
    alloc: Global,
    names: &N,
    depth: u8,
    rest: Rest<'a>,
) -> Result<(Stmts<Net>, Rest<'a>), PhraseError>
    ensures { Gives statements_and_rest result (block_at (statement_at (N.names names.now) (N.free names.now) depth) (length (lexemes_left rest.entry)) (lexemes_left rest.entry)) }
{
    let mut prefix = Vec::new(alloc);
    let mut left = rest.tokens.len();
    let mut after = rest;
    while left > 0 {
        if let Some(rest) = block_end(after) {
            let list = statements(alloc, prefix)?;
            return Ok((list, rest));
        }
        let (first, rest) = stmt(alloc, names, depth, after)?;
        after = rest;
        prefix.push(first)?;
        left -= 1;
    }
    fault(Code::Syntax, after)
}

/// The statement in front of what is left, and what is left after it. It is the first fault that is returned, unless memory
/// runs out.
#[tactic(auto, unfolding(crate::specs::Statements::whole_statement_at))]
pub fn statement<'a, N: Names>(
    alloc: Global,
    names: &N,
    rest: Rest<'a>,
) -> Result<(Stmt<Net>, Rest<'a>), PhraseError>
    ensures { Gives statement_and_rest result (whole_statement_at (N.names names.now) (N.free names.now) (lexemes_left rest.entry)) }
{
    stmt(alloc, names, MOST_DEPTH, rest)
}
