//! The loop that gives each word of a memory its first value.

ghost use Rattle.std.specs.Prelude.{◌≤◌, ◌∷◌, [], OnOk};
ghost use Rattle.net_core.specs.Width.{Fits};
ghost use Rattle.verilog_write.specs.VerilogGrammar.Grammar.{constant, fill_lexemes};
ghost use Rattle.verilog_lex.specs.Lexeme.{LName, LNumber, LSymbol};
ghost use Rattle.verilog_lex.specs.Spelling.{IsName};
ghost use Rattle.verilog_lex.specs.declared.token.Symbol.TheVariants as symbol;
ghost use Rattle.verilog_write.specs.Adds.{AddsWord, AddsMark, AddsLine};

use crate::expression::push_word;
use crate::spaced::push_operator;
use net_core::tree::Word;
use std::alloc::AllocError;
use verilog_lex::{Keyword, Symbol, push_keyword, push_name, push_number, push_space, push_symbol};

/// Adds an integer, an operator and a number, with a semicolon behind.
fn push_part(
    text: &mut Vec<u8>,
    integer: &[u8],
    operator: Symbol,
    number: u32,
) -> Result<(), AllocError>
    requires name { IsName integer.now }
    requires number { number ≤ 65536 }
    ensures { OnOk result (AddsLine text.old.items text.new.items (LName integer.now ∷ LSymbol operator ∷ LNumber number ∷ LSymbol symbol.Semicolon ∷ [])) }
{
    push_name(text, integer)?;
    push_operator(text, operator)?;
    push_number(text, number)?;
    push_symbol(text, Symbol::Semicolon)?;
    push_space(text)
}

/// Adds the step of a loop, by one.
fn push_step(text: &mut Vec<u8>, integer: &[u8]) -> Result<(), AllocError>
    requires { IsName integer.now }
    ensures { OnOk result (AddsWord text.old.items text.new.items (LName integer.now ∷ LSymbol symbol.Assign ∷ LName integer.now ∷ LSymbol symbol.Plus ∷ LNumber 1 ∷ [])) }
{
    push_name(text, integer)?;
    push_operator(text, Symbol::Assign)?;
    push_name(text, integer)?;
    push_operator(text, Symbol::Plus)?;
    push_number(text, 1)
}

/// Adds the head of a loop over the words of a memory.
fn push_head(text: &mut Vec<u8>, integer: &[u8], words: u32) -> Result<(), AllocError>
    requires name { IsName integer.now }
    requires words { words ≤ 65536 }
    ensures { OnOk result (AddsMark text.old.items text.new.items (LSymbol symbol.OpenParenthesis ∷ LName integer.now ∷ LSymbol symbol.Assign ∷ LNumber 0 ∷ LSymbol symbol.Semicolon ∷ LName integer.now ∷ LSymbol symbol.Less ∷ LNumber words ∷ LSymbol symbol.Semicolon ∷ LName integer.now ∷ LSymbol symbol.Assign ∷ LName integer.now ∷ LSymbol symbol.Plus ∷ LNumber 1 ∷ LSymbol symbol.CloseParenthesis ∷ [])) }
{
    push_symbol(text, Symbol::OpenParenthesis)?;
    push_part(text, integer, Symbol::Assign, 0)?;
    push_part(text, integer, Symbol::Less, words)?;
    push_step(text, integer)?;
    push_symbol(text, Symbol::CloseParenthesis)
}

/// Adds the assignment of a value to the word of a memory at an integer.
fn push_first(
    text: &mut Vec<u8>,
    memory: &[u8],
    integer: &[u8],
    first: Word,
) -> Result<(), AllocError>
    requires memory { IsName memory.now }
    requires integer { IsName integer.now }
    requires first { Fits first }
    ensures { OnOk result (AddsLine text.old.items text.new.items (LName memory.now ∷ LSymbol symbol.OpenBracket ∷ LName integer.now ∷ LSymbol symbol.CloseBracket ∷ LSymbol symbol.Assign ∷ constant first ∷ LSymbol symbol.Semicolon ∷ [])) }
{
    push_name(text, memory)?;
    push_symbol(text, Symbol::OpenBracket)?;
    push_name(text, integer)?;
    push_symbol(text, Symbol::CloseBracket)?;
    push_operator(text, Symbol::Assign)?;
    push_word(text, first)?;
    push_symbol(text, Symbol::Semicolon)
}

/// Adds the loop that gives each word of a memory its first value.
pub fn push_fill(
    text: &mut Vec<u8>,
    memory: &[u8],
    integer: &[u8],
    words: u32,
    first: Word,
) -> Result<(), AllocError>
    requires memory { IsName memory.now }
    requires integer { IsName integer.now }
    requires words { words ≤ 65536 }
    requires first { Fits first }
    ensures { OnOk result (AddsLine text.old.items text.new.items (fill_lexemes memory.now integer.now words first)) }
{
    push_keyword(text, Keyword::Initial)?;
    push_space(text)?;
    push_keyword(text, Keyword::For)?;
    push_space(text)?;
    push_head(text, integer, words)?;
    push_space(text)?;
    push_first(text, memory, integer, first)
}
