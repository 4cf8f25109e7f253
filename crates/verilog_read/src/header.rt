//! The header of a design: its ports.

ghost use Rattle.std.specs.Prelude.{◌≡◌, IfOk};
ghost use Rattle.net_core.specs.View.{netlist_of};
ghost use Rattle.verilog_expression.specs.View.{Finds, Gives, comma_at, lexemes_left};
ghost use Rattle.verilog_read.specs.Header.{direction_at, header_at, port_at, ports_at};
ghost use Rattle.verilog_read.specs.View.{NoWires, OnlyPorts};

use crate::added::with_port;
use crate::partial::Partial;
use crate::parts::{fresh, range};
use net_core::design::Port;
use std::alloc::Global;
use verilog_expression::lexemes::{fault, lexeme, phrase};
use verilog_expression::{Code, Mark, PhraseError, Rest};
use verilog_lex::{Keyword, Symbol, Token, TokenKind};

// The direction of a port: whether it is an output.
fn direction<'a>(rest: Rest<'a>) -> Result<(bool, Rest<'a>), PhraseError>
    ensures { Gives (λ x. (x.0, lexemes_left x.1)) result (direction_at (lexemes_left rest.entry)) }
{
    match rest.tokens {
        [
            Token {
                kind: TokenKind::Keyword(Keyword::Input),
                ..
            },
            tokens @ ..,
        ] => Ok((false, Rest { tokens, ..rest })),
        [
            Token {
                kind: TokenKind::Keyword(Keyword::Output),
                ..
            },
            tokens @ ..,
        ] => Ok((true, Rest { tokens, ..rest })),
        _ => fault(Code::Syntax, rest),
    }
}

// A design with the port in front after its others.
#[tactic(auto, unfolding(crate::specs::Header::port_at))]
fn port<'a>(
    alloc: Global,
    partial: Partial<'a>,
    rest: Rest<'a>,
) -> Result<(Partial<'a>, Rest<'a>), PhraseError>
    requires { OnlyPorts (netlist_of partial) }
    ensures read { Gives (λ x. (netlist_of x.0, lexemes_left x.1)) result (port_at (netlist_of partial.entry) (lexemes_left rest.entry)) }
    ensures only { IfOk result (λ x. OnlyPorts (netlist_of x.0)) }
{
    let (output, rest) = direction(rest)?;
    let rest = lexeme(Mark::Keyword(Keyword::Wire), rest)?;
    let (width, rest) = range(rest)?;
    let (name, rest) = fresh(&partial, rest)?;
    let partial = with_port(alloc, partial, name, Port { output, width })?;
    Ok((partial, rest))
}

// What is left after a comma, where one stands in front.
fn comma<'a>(rest: Rest<'a>) -> Option<Rest<'a>>
    ensures { Finds (λ r. lexemes_left r) result (comma_at (lexemes_left rest.entry)) }
{
    match rest.tokens {
        [
            Token {
                kind: TokenKind::Symbol(Symbol::Comma),
                ..
            },
            tokens @ ..,
        ] => Some(Rest { tokens, ..rest }),
        _ => None,
    }
}

// At most so many ports.
fn ports<'a>(
    alloc: Global,
    most: usize,
    partial: Partial<'a>,
    rest: Rest<'a>,
) -> Result<(Partial<'a>, Rest<'a>), PhraseError>
    requires { OnlyPorts (netlist_of partial) }
    ensures read { Gives (λ x. (netlist_of x.0, lexemes_left x.1)) result (ports_at most (netlist_of partial.entry) (lexemes_left rest.entry)) }
    ensures only { IfOk result (λ x. OnlyPorts (netlist_of x.0)) }
{
    let mut left = most;
    let mut before = partial;
    let mut after = rest;
    while left > 0 {
        let (partial, rest) = port(alloc, before, after)?;
        match comma(rest) {
            Some(more) => after = more,
            None => return Ok((partial, rest)),
        }
        before = partial;
        left -= 1;
    }
    fault(Code::Syntax, after)
}

/// The name and the ports of a design.
#[tactic(auto, unfolding(crate::specs::Header::header_at))]
pub(crate) fn header<'a>(
    alloc: Global,
    rest: Rest<'a>,
) -> Result<(Partial<'a>, Rest<'a>), PhraseError>
    ensures read { Gives (λ x. (netlist_of x.0, lexemes_left x.1)) result (header_at (lexemes_left rest.entry)) }
    ensures wires { IfOk result (λ x. NoWires (netlist_of x.0)) }
{
    let prefix = [
        Mark::Keyword(Keyword::Module),
        Mark::Name(b"ehdl"),
        Mark::Symbol(Symbol::OpenParenthesis),
    ];
    let rest = phrase(&prefix, rest)?;
    let (partial, rest) = ports(alloc, rest.tokens.len(), Partial::new(alloc), rest)?;
    let end = [
        Mark::Symbol(Symbol::CloseParenthesis),
        Mark::Symbol(Symbol::Semicolon),
    ];
    let rest = phrase(&end, rest)?;
    Ok((partial, rest))
}
