//! Wires, assigns and always blocks, each after the items before it.

ghost use Rattle.std.specs.Prelude.{◌≡◌};
ghost use Rattle.net_core.specs.View.{netlist_of};
ghost use Rattle.verilog_expression.specs.View.{Gives, lexemes_left};
ghost use Rattle.verilog_read.specs.Items as items;
ghost use Rattle.verilog_read.specs.Items.{always_at, assign_at, output_at, wire_at};

use crate::added::{with_always, with_assign, with_wire};
use crate::partial::Partial;
use crate::parts::{ends, fresh, range};
use net_core::design::{Assign, Wire};
use std::alloc::Global;
use verilog_expression::lexemes::{fault, lexeme, name, phrase};
use verilog_expression::{
    Code, Entry, Mark, Names, PhraseError, Rest, expression, right_side, statement,
};
use verilog_lex::{Keyword, Symbol};

/// A wire, after its keyword.
#[tactic(auto, unfolding(crate::specs::Items::wire_at))]
pub(crate) fn wire_item<'a>(
    alloc: Global,
    partial: Partial<'a>,
    rest: Rest<'a>,
) -> Result<(Partial<'a>, Rest<'a>), PhraseError>
    ensures { Gives (λ x. (netlist_of x.0, lexemes_left x.1)) result (wire_at (netlist_of partial.entry) (lexemes_left rest.entry)) }
{
    let (width, rest) = range(rest)?;
    let (name, rest) = fresh(&partial, rest)?;
    let rest = lexeme(Mark::Symbol(Symbol::Assign), rest)?;
    let (right, side, rest) = right_side(alloc, &partial, rest)?;
    let rest = ends(side == width, rest)?;
    let partial = with_wire(alloc, partial, name, Wire { width, right })?;
    Ok((partial, rest))
}

// The number and the width of an output.
fn as_output(entry: Option<Entry>) -> Option<(u32, u8)>
    ensures { result ≡ items.as_output entry }
{
    match entry {
        Some(entry) => match entry {
            Entry::Output { port, width } => Some((port, width)),
            _ => None,
        },
        None => None,
    }
}

// An output to which nothing is assigned yet: its number and its width.
#[tactic(auto, unfolding(crate::specs::Items::output_at))]
fn output<'a>(partial: &Partial, rest: Rest<'a>) -> Result<(u32, u8, Rest<'a>), PhraseError>
    ensures { Gives (λ x. ((x.0, x.1), lexemes_left x.2)) result (output_at (netlist_of partial.now) (lexemes_left rest.entry)) }
{
    let (name, after) = name(rest)?;
    let Some((port, width)) = as_output(partial.find(name)) else {
        return fault(Code::Unknown, rest);
    };
    if partial.is_assigned(port as usize) {
        return fault(Code::Twice, rest);
    }
    Ok((port, width, after))
}

/// What an output shows, after its keyword.
#[tactic(auto, unfolding(crate::specs::Items::assign_at))]
pub(crate) fn assign_item<'a>(
    alloc: Global,
    partial: Partial<'a>,
    rest: Rest<'a>,
) -> Result<(Partial<'a>, Rest<'a>), PhraseError>
    ensures { Gives (λ x. (netlist_of x.0, lexemes_left x.1)) result (assign_at (netlist_of partial.entry) (lexemes_left rest.entry)) }
{
    let (port, width, rest) = output(&partial, rest)?;
    let rest = lexeme(Mark::Symbol(Symbol::Assign), rest)?;
    let (value, side, rest) = expression(alloc, &partial, rest)?;
    let rest = ends(side == width, rest)?;
    let partial = with_assign(partial, Assign { port, value })?;
    Ok((partial, rest))
}

/// An always block, after its keyword.
#[tactic(auto, unfolding(crate::specs::Items::always_at))]
pub(crate) fn always_item<'a>(
    alloc: Global,
    partial: Partial<'a>,
    rest: Rest<'a>,
) -> Result<(Partial<'a>, Rest<'a>), PhraseError>
    ensures { Gives (λ x. (netlist_of x.0, lexemes_left x.1)) result (always_at (netlist_of partial.entry) (lexemes_left rest.entry)) }
{
    let prefix = [
        Mark::Symbol(Symbol::At),
        Mark::Symbol(Symbol::OpenParenthesis),
        Mark::Keyword(Keyword::Posedge),
        Mark::Name(b"clk"),
        Mark::Symbol(Symbol::CloseParenthesis),
    ];
    let rest = phrase(&prefix, rest)?;
    let (block, rest) = statement(alloc, &partial, rest)?;
    let partial = with_always(partial, block)?;
    Ok((partial, rest))
}
