//! The items of a design, in the order of their sections.

ghost use Rattle.std.specs.Prelude.{◌≡◌, ◌≤◌, IfOk};
ghost use Rattle.net_core.specs.View.{netlist_of};
ghost use Rattle.verilog_expression.specs.View.{Finds, Gives, lexemes_left};
ghost use Rattle.verilog_read.specs.Items.{item_in, items_at, rank};
ghost use Rattle.verilog_read.specs.View.{KeepsOrder, NoWires, endmodule_at};
ghost use Rattle.verilog_read.specs.Words.{begins_at, behind_word, item_section};

use crate::declared::{integer_item, reg_item};
use crate::items::{always_item, assign_item, wire_item};
use crate::partial::Partial;
use crate::section::Section;
use std::alloc::Global;
use verilog_expression::lexemes::fault;
use verilog_expression::{Code, PhraseError, Rest};
use verilog_lex::{Keyword, Token, TokenKind};

fn rank(section: Section) -> u8
    ensures { result ≡ rank section }
{
    match section {
        Section::Declared => 0,
        Section::Wires => 1,
        Section::Assigns => 2,
        Section::Always => 3,
    }
}

/// An item, by its first word.
#[derive(Clone, Copy)]
pub(crate) enum Item {
    Integer,
    Reg,
    Wire,
    Assign,
    Always,
}

// The item that begins in front, and what is left after its first word.
fn begins<'a>(rest: Rest<'a>) -> Option<(Item, Rest<'a>)>
    ensures { Finds (λ x. (x.0, lexemes_left x.1)) result (begins_at (lexemes_left rest.entry)) }
{
    match rest.tokens {
        [
            Token {
                kind: TokenKind::Keyword(keyword),
                ..
            },
            tokens @ ..,
        ] => {
            let behind = Rest { tokens, ..rest };
            match keyword {
                Keyword::Integer => Some((Item::Integer, behind)),
                Keyword::Reg => Some((Item::Reg, behind)),
                Keyword::Wire => Some((Item::Wire, behind)),
                Keyword::Assign => Some((Item::Assign, behind)),
                Keyword::Always => Some((Item::Always, behind)),
                _ => None,
            }
        }
        _ => None,
    }
}

// The section of an item.
fn section_of(item: Item) -> Section
    ensures { result ≡ item_section item }
{
    match item {
        Item::Integer | Item::Reg => Section::Declared,
        Item::Wire => Section::Wires,
        Item::Assign => Section::Assigns,
        Item::Always => Section::Always,
    }
}

// An item, after its first word.
fn item_behind<'a>(
    alloc: Global,
    item: Item,
    partial: Partial<'a>,
    rest: Rest<'a>,
) -> Result<(Partial<'a>, Rest<'a>), PhraseError>
    requires { item_section item ≡ Section.Declared → NoWires (netlist_of partial) }
    ensures read { Gives (λ x. (netlist_of x.0, lexemes_left x.1)) result (behind_word item (netlist_of partial.entry) (lexemes_left rest.entry)) }
    ensures wires { item_section item ≡ Section.Declared → IfOk result (λ x. NoWires (netlist_of x.0)) }
{
    match item {
        Item::Integer => integer_item(alloc, partial, rest),
        Item::Reg => reg_item(alloc, partial, rest),
        Item::Wire => wire_item(alloc, partial, rest),
        Item::Assign => assign_item(alloc, partial, rest),
        Item::Always => always_item(alloc, partial, rest),
    }
}

// An item that stands in no earlier section than the one before it, and its section.
#[tactic(auto, using(crate::proofs::Begun::none_begun))]
fn ordered_item<'a>(
    alloc: Global,
    now: Section,
    partial: Partial<'a>,
    rest: Rest<'a>,
) -> Result<(Section, Partial<'a>, Rest<'a>), PhraseError>
    requires { KeepsOrder now (netlist_of partial) }
    ensures read { Gives (λ x. ((x.0, netlist_of x.1), lexemes_left x.2)) result (item_in now (netlist_of partial.entry) (lexemes_left rest.entry)) }
    ensures order { IfOk result (λ x. KeepsOrder x.0 (netlist_of x.1)) }
{
    let Some((item, behind)) = begins(rest) else {
        return fault(Code::Syntax, rest);
    };
    let section = section_of(item);
    if rank(now) > rank(section) {
        return fault(Code::Order, rest);
    }
    let (partial, rest) = item_behind(alloc, item, partial, behind)?;
    Ok((section, partial, rest))
}

// What is left after `endmodule`, where it stands in front.
fn endmodule<'a>(rest: Rest<'a>) -> Option<Rest<'a>>
    ensures { Finds (λ r. lexemes_left r) result (endmodule_at (lexemes_left rest.entry)) }
{
    match rest.tokens {
        [
            Token {
                kind: TokenKind::Keyword(Keyword::Endmodule),
                ..
            },
            tokens @ ..,
        ] => Some(Rest { tokens, ..rest }),
        _ => None,
    }
}

/// The items up to `endmodule`, fewer than so many.
pub(crate) fn items<'a>(
    alloc: Global,
    most: usize,
    partial: Partial<'a>,
    rest: Rest<'a>,
) -> Result<(Partial<'a>, Rest<'a>), PhraseError>
    requires { NoWires (netlist_of partial) }
    ensures { Gives (λ x. (netlist_of x.0, lexemes_left x.1)) result (items_at most Section.Declared (netlist_of partial.entry) (lexemes_left rest.entry)) }
{
    let mut left = most;
    let mut now = Section::Declared;
    let mut before = partial;
    let mut after = rest;
    while left > 0 {
        if let Some(rest) = endmodule(after) {
            return Ok((before, rest));
        }
        let (section, partial, rest) = ordered_item(alloc, now, before, after)?;
        now = section;
        before = partial;
        after = rest;
        left -= 1;
    }
    fault(Code::Syntax, after)
}
