//! Memories: how many words, and the loop that fills them.

ghost use Rattle.std.specs.Prelude.{◌≡◌, ◌^◌, ◌≤◌, IfOk, IfSome, map};
ghost use Rattle.net_core.specs.View.{netlist_of};
ghost use Rattle.verilog_expression.specs.View.{Gives, lexemes_left};
ghost use Rattle.verilog_read.specs.Declarations as declarations;
ghost use Rattle.verilog_read.specs.Declarations.{all_parts_at, fill_at, integer_at, loop_parts, memory_at, part_at};
ghost use Rattle.verilog_read.specs.Parts.{part_of};
ghost use Rattle.verilog_read.specs.View.{IsNew, NoWires};

use crate::added::with_declared;
use crate::partial::Partial;
use crate::parts::ends;
use net_core::design::Declared;
use std::alloc::Global;
use verilog_expression::lexemes::{constant, fault, lexeme, name, number, phrase};
use verilog_expression::{Code, Entry, Mark, Names, PhraseError, Rest};
use verilog_lex::{Keyword, Symbol};

// How many words an index of a width selects from.
#[tactic(auto, using(std::proofs::lemmas::Nat::one_shl))]
fn words_of(index: u8) -> u32
    requires { index ≤ 16 }
    ensures { result ≡ 2 ^ index }
{
    1 << index
}

// The width of an index whose last one is this.
fn index_of(last: u32) -> Option<u8>
    ensures width { result ≡ declarations.index_of last }
    ensures most { IfSome result (λ w. w ≤ 16) }
{
    for width in 1..17 {
        if last == words_of(width) - 1 {
            return Some(width);
        }
    }
    None
}

/// A part of the loop that fills a memory.
#[derive(Clone, Copy)]
pub(crate) enum Part<'a> {
    This(Mark<'a>),
    /// A name that stood before.
    Same(&'a [u8]),
    /// The number of words.
    Bound(u32),
}

// What is left after a name that stood before.
#[tactic(auto, unfolding(crate::specs::Declarations::part_at))]
fn same<'a>(before: &[u8], rest: Rest<'a>) -> Result<Rest<'a>, PhraseError>
    ensures { Gives (λ r. lexemes_left r) result (part_at (declarations.Part.Same before.now) (lexemes_left rest.entry)) }
{
    let (name, after) = name(rest)?;
    if before == name {
        Ok(after)
    } else {
        fault(Code::Unknown, rest)
    }
}

// What is left after the number of words.
#[tactic(auto, unfolding(crate::specs::Declarations::part_at))]
fn bound<'a>(words: u32, rest: Rest<'a>) -> Result<Rest<'a>, PhraseError>
    ensures { Gives (λ r. lexemes_left r) result (part_at (declarations.Part.Bound words) (lexemes_left rest.entry)) }
{
    let (number, after) = number(rest)?;
    if words == number {
        Ok(after)
    } else {
        fault(Code::Width, rest)
    }
}

// What is left after a part.
#[tactic(auto, unfolding(crate::specs::Declarations::part_at))]
fn one_part<'a>(part: Part, rest: Rest<'a>) -> Result<Rest<'a>, PhraseError>
    ensures { Gives (λ r. lexemes_left r) result (part_at (part_of part.entry) (lexemes_left rest.entry)) }
{
    match part {
        Part::This(mark) => lexeme(mark, rest),
        Part::Same(before) => same(before, rest),
        Part::Bound(words) => bound(words, rest),
    }
}

// What is left after several parts.
fn all_parts<'a>(parts: &[Part], rest: Rest<'a>) -> Result<Rest<'a>, PhraseError>
    ensures { Gives (λ r. lexemes_left r) result (all_parts_at (map part_of parts.now) (lexemes_left rest.entry)) }
{
    let mut after = rest;
    for part in parts {
        after = one_part(*part, after)?;
    }
    Ok(after)
}

// The loop over an integer that fills a memory, after its first name and before the constant.
fn loop_head<'a, 'n>(
    name: &'n str,
    integer: &'n [u8],
    index: u8,
    rest: Rest<'a>,
) -> Result<Rest<'a>, PhraseError>
    requires { index ≤ 16 }
    ensures { Gives (λ r. lexemes_left r) result (all_parts_at (loop_parts name.now integer.now (2 ^ index)) (lexemes_left rest.entry)) }
{
    let parts = [
        Part::This(Mark::Symbol(Symbol::Assign)),
        Part::This(Mark::Number(0)),
        Part::This(Mark::Symbol(Symbol::Semicolon)),
        Part::Same(integer),
        Part::This(Mark::Symbol(Symbol::Less)),
        Part::Bound(words_of(index)),
        Part::This(Mark::Symbol(Symbol::Semicolon)),
        Part::Same(integer),
        Part::This(Mark::Symbol(Symbol::Assign)),
        Part::Same(integer),
        Part::This(Mark::Symbol(Symbol::Plus)),
        Part::This(Mark::Number(1)),
        Part::This(Mark::Symbol(Symbol::CloseParenthesis)),
        Part::Same(name.as_bytes()),
        Part::This(Mark::Symbol(Symbol::OpenBracket)),
        Part::Same(integer),
        Part::This(Mark::Symbol(Symbol::CloseBracket)),
        Part::This(Mark::Symbol(Symbol::Assign)),
    ];
    all_parts(&parts, rest)
}

// The number of an integer.
fn as_integer(entry: Option<Entry>) -> Option<u32>
    ensures { result ≡ declarations.as_integer entry }
{
    match entry {
        Some(entry) => match entry {
            Entry::Integer(integer) => Some(integer),
            _ => None,
        },
        None => None,
    }
}

// The name of an integer, and its number.
#[tactic(auto, unfolding(crate::specs::Declarations::integer_at))]
fn integer<'a>(partial: &Partial, rest: Rest<'a>) -> Result<(&'a [u8], u32, Rest<'a>), PhraseError>
    ensures { Gives (λ x. ((x.0.now, x.1), lexemes_left x.2)) result (integer_at (netlist_of partial.now) (lexemes_left rest.entry)) }
{
    let (name, after) = name(rest)?;
    let Some(integer) = as_integer(partial.find(name)) else {
        return fault(Code::Unknown, rest);
    };
    Ok((name, integer, after))
}

// After the range of a memory's index.
#[tactic(auto, unfolding(crate::specs::Declarations::fill_at))]
fn fill<'a>(
    alloc: Global,
    partial: Partial<'a>,
    width: u8,
    name: &'a str,
    index: u8,
    rest: Rest<'a>,
) -> Result<(Partial<'a>, Rest<'a>), PhraseError>
    requires fresh { IsNew (netlist_of partial) name.now }
    requires wires { NoWires (netlist_of partial) }
    requires most { index ≤ 16 }
    ensures read { Gives (λ x. (netlist_of x.0, lexemes_left x.1)) result (fill_at (netlist_of partial.entry) width name.now index (lexemes_left rest.entry)) }
    ensures wires { IfOk result (λ x. NoWires (netlist_of x.0)) }
{
    let prefix = [
        Mark::Symbol(Symbol::Semicolon),
        Mark::Keyword(Keyword::Initial),
        Mark::Keyword(Keyword::For),
        Mark::Symbol(Symbol::OpenParenthesis),
    ];
    let rest = phrase(&prefix, rest)?;
    let (over, integer, rest) = integer(&partial, rest)?;
    let rest = loop_head(name, over, index, rest)?;
    let (first, rest) = constant(rest)?;
    let rest = ends(first.width == width, rest)?;
    let memory = Declared::Memory {
        index,
        first,
        integer,
    };
    let partial = with_declared(alloc, partial, name, memory)?;
    Ok((partial, rest))
}

/// A memory, after its width, its name and `[`.
#[tactic(auto, unfolding(crate::specs::Declarations::memory_at))]
pub(crate) fn memory<'a>(
    alloc: Global,
    partial: Partial<'a>,
    width: u8,
    name: &'a str,
    rest: Rest<'a>,
) -> Result<(Partial<'a>, Rest<'a>), PhraseError>
    requires fresh { IsNew (netlist_of partial) name.now }
    requires wires { NoWires (netlist_of partial) }
    ensures read { Gives (λ x. (netlist_of x.0, lexemes_left x.1)) result (memory_at (netlist_of partial.entry) width name.now (lexemes_left rest.entry)) }
    ensures wires { IfOk result (λ x. NoWires (netlist_of x.0)) }
{
    let prefix = [Mark::Number(0), Mark::Symbol(Symbol::Colon)];
    let rest = phrase(&prefix, rest)?;
    let (last, end) = number(rest)?;
    let rest = lexeme(Mark::Symbol(Symbol::CloseBracket), end)?;
    match index_of(last) {
        Some(index) => fill(alloc, partial, width, name, index, rest),
        None => fault(Code::Width, end),
    }
}
