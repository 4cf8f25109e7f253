//! Symbols with spaces around them, and ranges.

ghost use Rattle.std.specs.Prelude.{◌<◌, ◌≤◌, ◌∷◌, [], List, OnOk};
ghost use Rattle.verilog_write.specs.VerilogGrammar.Grammar.{range_lexemes};
ghost use Rattle.verilog_lex.specs.Lexeme.{LNumber, LSymbol, Lexeme};
ghost use Rattle.verilog_lex.specs.Spelling.{IsClosed};
ghost use Rattle.verilog_lex.specs.declared.token.Symbol.TheVariants as symbol;
ghost use Rattle.verilog_write.specs.Adds.{AddsMark};

use std::alloc::AllocError;
use verilog_lex::{Symbol, push_number, push_space, push_symbol};

/// Adds a space to a closed text that does not end with one.
pub fn push_apart(text: &mut Vec<u8>) -> Result<(), AllocError>
    ensures { OnOk result ((ls : List Lexeme) → IsClosed text.old.items ls → IsClosed text.new.items ls) }
{
    if text.ends_with(b" ") {
        return Ok(());
    }
    push_space(text)
}

/// Adds a symbol with spaces around it.
pub fn push_operator(text: &mut Vec<u8>, symbol: Symbol) -> Result<(), AllocError>
    ensures { OnOk result (AddsMark text.old.items text.new.items (LSymbol symbol ∷ [])) }
{
    push_space(text)?;
    push_symbol(text, symbol)?;
    push_apart(text)
}

/// Adds two numbers in brackets with a colon between.
pub fn push_span(text: &mut Vec<u8>, high: u32, low: u32) -> Result<(), AllocError>
    requires high { high ≤ 65536 }
    requires low { low ≤ 65536 }
    ensures { OnOk result (AddsMark text.old.items text.new.items (LSymbol symbol.OpenBracket ∷ LNumber high ∷ LSymbol symbol.Colon ∷ LNumber low ∷ LSymbol symbol.CloseBracket ∷ [])) }
{
    push_symbol(text, Symbol::OpenBracket)?;
    push_number(text, high)?;
    push_symbol(text, Symbol::Colon)?;
    push_number(text, low)?;
    push_symbol(text, Symbol::CloseBracket)
}

/// Adds the range of a width, which is nothing where the width is 1, and a space.
pub fn push_range(text: &mut Vec<u8>, width: u8) -> Result<(), AllocError>
    requires { 0 < width }
    ensures { OnOk result (AddsMark text.old.items text.new.items (range_lexemes width)) }
{
    push_space(text)?;
    if width == 1 {
        return Ok(());
    }
    push_span(text, width as u32 - 1, 0)?;
    push_space(text)
}
