//! Assignments in an always block: what is set, and its value.

ghost use Rattle.std.specs.Prelude.{◌≡◌};
ghost use Rattle.verilog_expression.specs.Expressions.{whole_expr_at};
ghost use Rattle.verilog_expression.specs.View.{Gives, statement_and_rest, lexemes_left, tree_and_rest};
ghost use Rattle.verilog_expression.specs.Statements.{assigned_at, index_at, set_at, store_at, target_at, word_at};

use crate::entry::Entry;
use crate::error::PhraseError;
use crate::expr::expression;
use crate::fault::Code;
use crate::lexemes::{fault, symbol};
use crate::lookahead::begins_expression;
use crate::names::Names;
use crate::rest::Rest;
use net_core::tree::{Expr, Net, Stmt};
use std::alloc::Global;
use verilog_lex::{Symbol, Token, TokenKind};

// After a target of this width: the value that it gets.
#[tactic(auto, unfolding(crate::specs::Statements::assigned_at))]
fn assigned<'a, N: Names>(
    alloc: Global,
    names: &N,
    width: u8,
    rest: Rest<'a>,
) -> Result<(Expr<Net>, Rest<'a>), PhraseError>
    ensures { Gives tree_and_rest result (assigned_at (whole_expr_at (N.names names.now)) width (lexemes_left rest.entry)) }
{
    let rest = symbol(Symbol::LessEqual, rest)?;
    let (value, bits, ends) = expression(alloc, names, rest)?;
    let rest = symbol(Symbol::Semicolon, ends)?;
    if bits == width {
        Ok((value, rest))
    } else {
        fault(Code::Width, ends)
    }
}

// After the name of a register: it is the first of the tokens `own`.
#[tactic(auto, unfolding(crate::specs::Statements::set_at))]
fn set<'a, N: Names>(
    alloc: Global,
    names: &N,
    own: Rest<'a>,
    register: u32,
    width: u8,
    rest: Rest<'a>,
) -> Result<(Stmt<Net>, Rest<'a>), PhraseError>
    ensures { Gives statement_and_rest result (set_at (N.free names.now) (whole_expr_at (N.names names.now)) (lexemes_left own.entry) register width (lexemes_left rest.entry)) }
{
    match rest.tokens {
        [
            Token {
                kind: TokenKind::Symbol(Symbol::OpenBracket),
                ..
            },
            ..
        ] => fault(Code::Unknown, own),
        _ => {
            if !names.is_free(Net::Register(register)) {
                return fault(Code::Twice, own);
            }
            let (value, rest) = assigned(alloc, names, width, rest)?;
            Ok((Stmt::Set(register, value), rest))
        }
    }
}

// An index of so many bits, and its bracket.
#[tactic(auto, unfolding(crate::specs::Statements::index_at))]
fn index_of<'a, N: Names>(
    alloc: Global,
    names: &N,
    index: u8,
    rest: Rest<'a>,
) -> Result<(Expr<Net>, Rest<'a>), PhraseError>
    ensures { Gives tree_and_rest result (index_at (whole_expr_at (N.names names.now)) index (lexemes_left rest.entry)) }
{
    let (at, bits, ends) = expression(alloc, names, rest)?;
    let rest = symbol(Symbol::CloseBracket, ends)?;
    if bits == index {
        Ok((at, rest))
    } else {
        fault(Code::Width, ends)
    }
}

// In the brackets after the name of a memory, which is the first of the tokens `own`.
#[tactic(auto, unfolding(crate::specs::Statements::word_at))]
fn word<'a, N: Names>(
    alloc: Global,
    names: &N,
    own: Rest<'a>,
    memory: u32,
    index: u8,
    width: u8,
    rest: Rest<'a>,
) -> Result<(Stmt<Net>, Rest<'a>), PhraseError>
    ensures { Gives statement_and_rest result (word_at (N.free names.now) (whole_expr_at (N.names names.now)) (lexemes_left own.entry) memory index width (lexemes_left rest.entry)) }
{
    if !names.is_free(Net::Memory(memory)) {
        return fault(Code::Twice, own);
    }
    let (at, rest) = index_of(alloc, names, index, rest)?;
    let (value, rest) = assigned(alloc, names, width, rest)?;
    Ok((Stmt::Store(memory, at, value), rest))
}

// After the name of a memory: it is the first of the tokens `own`.
#[tactic(auto, unfolding(crate::specs::Statements::store_at))]
fn store<'a, N: Names>(
    alloc: Global,
    names: &N,
    own: Rest<'a>,
    memory: u32,
    index: u8,
    width: u8,
    rest: Rest<'a>,
) -> Result<(Stmt<Net>, Rest<'a>), PhraseError>
    ensures { Gives statement_and_rest result (store_at (N.free names.now) (whole_expr_at (N.names names.now)) (lexemes_left own.entry) memory index width (lexemes_left rest.entry)) }
{
    match rest.tokens {
        [
            Token {
                kind: TokenKind::Symbol(Symbol::OpenBracket),
                ..
            },
            tokens @ ..,
        ] => {
            let rest = Rest { tokens, ..rest };
            word(alloc, names, own, memory, index, width, rest)
        }
        _ => fault(Code::Unknown, own),
    }
}

/// After the name of what is set: it is the first of the tokens `own`.
#[tactic(auto, unfolding(crate::specs::Statements::target_at))]
pub(crate) fn target<'a, N: Names>(
    alloc: Global,
    names: &N,
    own: Rest<'a>,
    entry: Entry,
    rest: Rest<'a>,
) -> Result<(Stmt<Net>, Rest<'a>), PhraseError>
    ensures { Gives statement_and_rest result (target_at (N.free names.now) (whole_expr_at (N.names names.now)) (lexemes_left own.entry) entry (lexemes_left rest.entry)) }
{
    match entry {
        Entry::Value {
            net: Net::Register(register),
            width,
        } => set(alloc, names, own, register, width, rest),
        Entry::Words {
            memory,
            index,
            width,
        } => store(alloc, names, own, memory, index, width, rest),
        _ => fault(Code::Unknown, own),
    }
}
