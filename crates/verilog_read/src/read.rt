//! A design from its text.

ghost use Rattle.std.specs.Prelude.{◌≡◌, IfOk};
ghost use Rattle.net_core.specs.Nets.{Netlist};
ghost use Rattle.net_core.specs.View.{netlist_of};
ghost use Rattle.verilog_expression.specs.verilog_write.VerilogGrammar.Spelling.{Spells};
ghost use Rattle.verilog_lex.specs.Lexeme.{lexemes_of};
ghost use Rattle.verilog_expression.specs.View.{Gives, lexemes_left};
ghost use Rattle.verilog_read.specs.Designs.{design_at, whole_at};
ghost use Rattle.verilog_read.specs.Texts as texts;
ghost use Rattle.verilog_read.specs.Texts.{IsOutcome, ReadsNetlist, by_lexemes, by_ports, outcome_of};
ghost use Rattle.verilog_read.specs.Designs as designs;

use crate::error::ReadError;
use crate::header::header;
use crate::partial::Partial;
use crate::ports::port_fault;
use crate::sections::items;
use net_core::design::Design;
use std::alloc::Global;
use verilog_expression::lexemes::fault;
use verilog_expression::{Code, PhraseError, Rest};
use verilog_lex::{LexError, Token, tokens};

// A design after which nothing is left.
fn whole<'a>(partial: Partial<'a>, rest: Rest<'a>) -> Result<Partial<'a>, PhraseError>
    ensures { Gives (λ d. netlist_of d) result (whole_at (netlist_of partial.entry) (lexemes_left rest.entry)) }
{
    match rest.tokens {
        [] => Ok(partial),
        _ => fault(Code::Syntax, rest),
    }
}

// The design that the tokens spell, its ports aside. There are fewer items than tokens.
#[tactic(auto, unfolding(crate::specs::Designs::design_at))]
fn design<'a>(alloc: Global, rest: Rest<'a>) -> Result<Partial<'a>, PhraseError>
    ensures { Gives (λ d. netlist_of d) result (design_at (lexemes_left rest.entry)) }
{
    let (partial, rest) = header(alloc, rest)?;
    let (partial, rest) = items(alloc, rest.tokens.len(), partial, rest)?;
    whole(partial, rest)
}

// The place of the token from which on so many are left, or the length of the text where none is.
fn place_of(text: &[u8], tokens: &[Token], left: usize) -> usize
    ensures { result ≡ texts.place_of text.now tokens.now left }
{
    match tokens.get(tokens.len().saturating_sub(left)) {
        Some(token) => token.start,
        None => text.len(),
    }
}

fn error_of(code: Code, at: usize) -> ReadError
    ensures { result ≡ texts.error_of code at }
{
    match code {
        Code::Syntax => ReadError::Syntax { at },
        Code::Unknown => ReadError::Unknown { at },
        Code::Twice => ReadError::Twice { at },
        Code::Width => ReadError::Width { at },
        Code::Order => ReadError::Order { at },
    }
}

// A design whose ports are as every design has them, and each of whose outputs is assigned.
fn with_ports(partial: Partial) -> Result<Design, ReadError>
    ensures { IsOutcome result (by_ports (netlist_of partial.entry) (designs.port_fault (netlist_of partial.entry))) }
{
    match port_fault(&partial) {
        None => Ok(partial.design),
        Some(k) => match u32::try_from(k) {
            Ok(port) => Err(ReadError::Ports { port }),
            Err(_) => Err(ReadError::NoMemory),
        },
    }
}

// The design that the tokens of a text spell, or its first error.
fn read_tokens(alloc: Global, text: &[u8], tokens: &[Token]) -> Result<Design, ReadError>
    ensures { IsOutcome result (by_lexemes text.now tokens.now (design_at (lexemes_of text.now tokens.now))) }
{
    match design(alloc, Rest { text, tokens }) {
        Ok(partial) => with_ports(partial),
        Err(PhraseError::Fault(fault)) => {
            Err(error_of(fault.code, place_of(text, tokens, fault.left)))
        }
        Err(PhraseError::NoMemory) => Err(ReadError::NoMemory),
    }
}

/// The design that a text of the subset of IEEE 1364-2005 spells, or its first error.
pub fn read_text(alloc: Global, text: &[u8]) -> Result<Design, ReadError>
    // The design, or the first error, is that of the definition.
    ensures outcome { IsOutcome result (outcome_of text.now) }
    // The text spells what is read.
    ensures found { IfOk result (λ d. Spells text.now (netlist_of d)) }
    // A design that the text spells is read, unless memory runs out: so a text with an error spells none.
    ensures only { (p : Netlist) → Spells text.now p → ReadsNetlist result p }
{
    match tokens(alloc, text) {
        Ok(all) => read_tokens(alloc, text, &all),
        Err(LexError::At { at }) => Err(ReadError::Lex { at }),
        Err(LexError::NoMemory) => Err(ReadError::NoMemory),
    }
}
