//! Integers, registers and memories.

ghost use Rattle.std.specs.Prelude.{◌≡◌, IfOk};
ghost use Rattle.net_core.specs.View.{netlist_of};
ghost use Rattle.verilog_expression.specs.View.{Gives, lexemes_left};
ghost use Rattle.verilog_read.specs.Declarations.{integer_item_at, reg_item_at, register_at, stored_at};
ghost use Rattle.verilog_read.specs.View.{IsNew, NoWires};
ghost use Rattle.verilog_read.specs.Words.{storage_at};

use crate::added::with_declared;
use crate::memory::memory;
use crate::partial::Partial;
use crate::parts::{ends, fresh, range};
use net_core::design::Declared;
use std::alloc::Global;
use verilog_expression::lexemes::{constant, fault, lexeme};
use verilog_expression::{Code, Mark, PhraseError, Rest};
use verilog_lex::{Symbol, Token, TokenKind};

/// An integer, after its keyword.
#[tactic(auto, unfolding(crate::specs::Declarations::integer_item_at))]
pub(crate) fn integer_item<'a>(
    alloc: Global,
    partial: Partial<'a>,
    rest: Rest<'a>,
) -> Result<(Partial<'a>, Rest<'a>), PhraseError>
    requires { NoWires (netlist_of partial) }
    ensures read { Gives (λ x. (netlist_of x.0, lexemes_left x.1)) result (integer_item_at (netlist_of partial.entry) (lexemes_left rest.entry)) }
    ensures wires { IfOk result (λ x. NoWires (netlist_of x.0)) }
{
    let (name, rest) = fresh(&partial, rest)?;
    let rest = lexeme(Mark::Symbol(Symbol::Semicolon), rest)?;
    let partial = with_declared(alloc, partial, name, Declared::Integer)?;
    Ok((partial, rest))
}

// After `reg`, a width, a name and `=`.
#[tactic(auto, unfolding(crate::specs::Declarations::register_at))]
fn register<'a>(
    alloc: Global,
    partial: Partial<'a>,
    width: u8,
    name: &'a str,
    rest: Rest<'a>,
) -> Result<(Partial<'a>, Rest<'a>), PhraseError>
    requires fresh { IsNew (netlist_of partial) name.now }
    requires wires { NoWires (netlist_of partial) }
    ensures read { Gives (λ x. (netlist_of x.0, lexemes_left x.1)) result (register_at (netlist_of partial.entry) width name.now (lexemes_left rest.entry)) }
    ensures wires { IfOk result (λ x. NoWires (netlist_of x.0)) }
{
    let (first, rest) = constant(rest)?;
    let rest = ends(first.width == width, rest)?;
    let partial = with_declared(alloc, partial, name, Declared::Register(first))?;
    Ok((partial, rest))
}

// After the name of a register, `=`, and of a memory, `[`: whether it is the first.
fn storage<'a>(rest: Rest<'a>) -> Result<(bool, Rest<'a>), PhraseError>
    ensures { Gives (λ x. (x.0, lexemes_left x.1)) result (storage_at (lexemes_left rest.entry)) }
{
    match rest.tokens {
        [
            Token {
                kind: TokenKind::Symbol(Symbol::Assign),
                ..
            },
            tokens @ ..,
        ] => Ok((true, Rest { tokens, ..rest })),
        [
            Token {
                kind: TokenKind::Symbol(Symbol::OpenBracket),
                ..
            },
            tokens @ ..,
        ] => Ok((false, Rest { tokens, ..rest })),
        _ => fault(Code::Syntax, rest),
    }
}

// After `reg`, a width and a name.
fn stored<'a>(
    alloc: Global,
    partial: Partial<'a>,
    width: u8,
    name: &'a str,
    rest: Rest<'a>,
) -> Result<(Partial<'a>, Rest<'a>), PhraseError>
    requires fresh { IsNew (netlist_of partial) name.now }
    requires wires { NoWires (netlist_of partial) }
    ensures read { Gives (λ x. (netlist_of x.0, lexemes_left x.1)) result (stored_at (netlist_of partial.entry) width name.now (lexemes_left rest.entry)) }
    ensures wires { IfOk result (λ x. NoWires (netlist_of x.0)) }
{
    let (is_register, rest) = storage(rest)?;
    if is_register {
        register(alloc, partial, width, name, rest)
    } else {
        memory(alloc, partial, width, name, rest)
    }
}

/// A register or a memory, after its keyword.
#[tactic(auto, unfolding(crate::specs::Declarations::reg_item_at))]
pub(crate) fn reg_item<'a>(
    alloc: Global,
    partial: Partial<'a>,
    rest: Rest<'a>,
) -> Result<(Partial<'a>, Rest<'a>), PhraseError>
    requires { NoWires (netlist_of partial) }
    ensures read { Gives (λ x. (netlist_of x.0, lexemes_left x.1)) result (reg_item_at (netlist_of partial.entry) (lexemes_left rest.entry)) }
    ensures wires { IfOk result (λ x. NoWires (netlist_of x.0)) }
{
    let (width, rest) = range(rest)?;
    let (name, rest) = fresh(&partial, rest)?;
    stored(alloc, partial, width, name, rest)
}
