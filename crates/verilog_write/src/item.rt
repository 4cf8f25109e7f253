//! Ports and items, each on a line of its own.

ghost use Rattle.std.specs.Prelude.{◌≡◌, ◌<◌, ◌≤◌, ◌-◌, ◌^◌, ◌∷◌, ◌++◌, [], OnOk, codes, if◌then◌else◌};
ghost use Rattle.net_core.specs.Names.{name_of};
ghost use Rattle.net_core.specs.View.{netlist_of, tree_of, right_of, statement_of};
ghost use Rattle.net_core.specs.Width.{Fits};
ghost use Rattle.verilog_write.specs.VerilogGrammar.Grammar as grammar;
ghost use Rattle.verilog_write.specs.VerilogGrammar.Grammar.{register_name, memory_name, statement_tree_lexemes};
ghost use Rattle.verilog_lex.specs.Lexeme.{LKeyword, LName, LNumber, LSymbol};
ghost use Rattle.verilog_lex.specs.Spelling.{IsName};
ghost use Rattle.verilog_lex.specs.declared.token.Keyword.TheVariants as keyword;
ghost use Rattle.verilog_lex.specs.declared.token.Symbol.TheVariants as symbol;
ghost use Rattle.verilog_write.specs.Adds.{AddsWord, AddsMark, AddsLine};
ghost use Rattle.verilog_write.specs.Writable.{IsWritable, IsRightWritable, IsStatementWritable, IsDeclarationWritable};

use crate::expression::{push_expression, push_right, push_word};
use crate::fill::push_fill;
use crate::names::{Names, integer_name};
use crate::spaced::{push_operator, push_range, push_span};
use crate::statement::push_statement;
use net_core::design::{Declared, Port, Wire};
use net_core::tree::{Expr, Net, Stmt, Word};
use std::alloc::AllocError;
use verilog_lex::{Keyword, Symbol, push_keyword, push_line, push_name, push_space, push_symbol};

/// The direction of a port.
fn direction(port: Port) -> Keyword
    ensures { result ≡ (if port.output then keyword.Output else keyword.Input) }
{
    if port.output {
        Keyword::Output
    } else {
        Keyword::Input
    }
}

/// Adds a port.
fn push_port(text: &mut Vec<u8>, name: &[u8], port: Port) -> Result<(), AllocError>
    requires name { IsName name.now }
    requires width { 0 < port.width }
    ensures { OnOk result (AddsWord text.old.items text.new.items (grammar.port_lexemes name.now port)) }
{
    push_keyword(text, direction(port))?;
    push_space(text)?;
    push_keyword(text, Keyword::Wire)?;
    push_range(text, port.width)?;
    push_name(text, name)
}

/// Adds a port, a comma where another port follows, and the end of the line.
pub fn push_port_line(
    text: &mut Vec<u8>,
    name: &[u8],
    port: Port,
    last: bool,
) -> Result<(), AllocError>
    requires name { IsName name.now }
    requires width { 0 < port.width }
    ensures { OnOk result (AddsLine text.old.items text.new.items (grammar.port_lexemes name.now port ++ (if last then [] else LSymbol symbol.Comma ∷ []))) }
{
    push_port(text, name, port)?;
    if last {
        return push_line(text);
    }
    push_symbol(text, Symbol::Comma)?;
    push_line(text)
}

/// Adds an integer.
fn push_integer(text: &mut Vec<u8>, name: &[u8]) -> Result<(), AllocError>
    requires { IsName name.now }
    ensures { OnOk result (AddsWord text.old.items text.new.items (LKeyword keyword.Integer ∷ LName name.now ∷ LSymbol symbol.Semicolon ∷ [])) }
{
    push_keyword(text, Keyword::Integer)?;
    push_space(text)?;
    push_name(text, name)?;
    push_symbol(text, Symbol::Semicolon)
}

/// Adds a register with its first value.
fn push_register(text: &mut Vec<u8>, name: &[u8], first: Word) -> Result<(), AllocError>
    requires name { IsName name.now }
    requires first { Fits first }
    ensures { OnOk result (AddsWord text.old.items text.new.items (LKeyword keyword.Reg ∷ (grammar.range_lexemes first.width ++ LName name.now ∷ LSymbol symbol.Assign ∷ grammar.constant first ∷ LSymbol symbol.Semicolon ∷ []))) }
{
    push_keyword(text, Keyword::Reg)?;
    push_range(text, first.width)?;
    push_name(text, name)?;
    push_operator(text, Symbol::Assign)?;
    push_word(text, first)?;
    push_symbol(text, Symbol::Semicolon)
}

/// Adds a memory without its first words, and the end of the line.
fn push_words(text: &mut Vec<u8>, name: &[u8], width: u8, words: u32) -> Result<(), AllocError>
    requires name { IsName name.now }
    requires width { 0 < width }
    requires some { 0 < words }
    requires words { words ≤ 65536 }
    ensures { OnOk result (AddsLine text.old.items text.new.items (LKeyword keyword.Reg ∷ (grammar.range_lexemes width ++ LName name.now ∷ LSymbol symbol.OpenBracket ∷ LNumber 0 ∷ LSymbol symbol.Colon ∷ LNumber (words - 1) ∷ LSymbol symbol.CloseBracket ∷ LSymbol symbol.Semicolon ∷ []))) }
{
    push_keyword(text, Keyword::Reg)?;
    push_range(text, width)?;
    push_name(text, name)?;
    push_space(text)?;
    push_span(text, 0, words - 1)?;
    push_symbol(text, Symbol::Semicolon)?;
    push_line(text)
}

/// Adds a memory of 2 to the power `index` words, and the loop that gives them their first value.
fn push_memory(
    text: &mut Vec<u8>,
    name: &[u8],
    integer: &[u8],
    index: u8,
    first: Word,
) -> Result<(), AllocError>
    requires name { IsName name.now }
    requires integer { IsName integer.now }
    requires index { index ≤ 16 }
    requires first { Fits first }
    ensures { OnOk result (AddsWord text.old.items text.new.items (LKeyword keyword.Reg ∷ (grammar.range_lexemes first.width ++ LName name.now ∷ LSymbol symbol.OpenBracket ∷ LNumber 0 ∷ LSymbol symbol.Colon ∷ LNumber (2 ^ index - 1) ∷ LSymbol symbol.CloseBracket ∷ LSymbol symbol.Semicolon ∷ grammar.fill_lexemes name.now integer.now (2 ^ index) first))) }
{
    let words = 2u32.pow(index as u32);
    push_words(text, name, first.width, words)?;
    push_fill(text, name, integer, words, first)
}

/// Adds what is declared.
pub fn push_declaration(
    text: &mut Vec<u8>,
    names: &Names,
    name: &[u8],
    item: &Declared,
) -> Result<(), AllocError>
    requires name { IsName name.now }
    requires item { IsDeclarationWritable (netlist_of names.now.design.now) item.now }
    ensures { OnOk result (AddsWord text.old.items text.new.items (grammar.declared_lexemes (grammar.integer_name (netlist_of names.now.design.now)) name.now item.now)) }
{
    match item {
        Declared::Integer => push_integer(text, name),
        Declared::Register(first) => push_register(text, name, *first),
        Declared::Memory {
            index,
            first,
            integer,
        } => { push_memory(text, name, integer_name(names, *integer), *index, *first) }
    }
}

/// Adds a wire.
pub fn push_wire(
    text: &mut Vec<u8>,
    names: &Names,
    name: &[u8],
    wire: &Wire,
) -> Result<(), AllocError>
    requires name { IsName name.now }
    requires width { 0 < wire.now.width }
    requires right { IsRightWritable (netlist_of names.now.design.now) (right_of wire.now.right) }
    ensures { OnOk result (AddsWord text.old.items text.new.items (grammar.wire_lexemes (name_of (netlist_of names.now.design.now)) name.now wire.now.width (right_of wire.now.right))) }
{
    push_keyword(text, Keyword::Wire)?;
    push_range(text, wire.width)?;
    push_name(text, name)?;
    push_operator(text, Symbol::Assign)?;
    push_right(text, names, &wire.right)?;
    push_symbol(text, Symbol::Semicolon)
}

/// Adds what an output shows.
pub fn push_assign(
    text: &mut Vec<u8>,
    names: &Names,
    port: &[u8],
    value: &Expr<Net>,
) -> Result<(), AllocError>
    requires name { IsName port.now }
    requires value { IsWritable (netlist_of names.now.design.now) (tree_of value.now) }
    ensures { OnOk result (AddsWord text.old.items text.new.items (grammar.assign_lexemes (name_of (netlist_of names.now.design.now)) port.now (tree_of value.now))) }
{
    push_keyword(text, Keyword::Assign)?;
    push_space(text)?;
    push_name(text, port)?;
    push_operator(text, Symbol::Assign)?;
    push_expression(text, names, value)?;
    push_symbol(text, Symbol::Semicolon)
}

/// Adds `@(posedge clk)` and a space.
fn push_edge(text: &mut Vec<u8>) -> Result<(), AllocError>
    ensures { OnOk result (AddsMark text.old.items text.new.items (LSymbol symbol.At ∷ LSymbol symbol.OpenParenthesis ∷ LKeyword keyword.Posedge ∷ LName (codes "clk") ∷ LSymbol symbol.CloseParenthesis ∷ [])) }
{
    push_symbol(text, Symbol::At)?;
    push_symbol(text, Symbol::OpenParenthesis)?;
    push_keyword(text, Keyword::Posedge)?;
    push_space(text)?;
    push_name(text, b"clk")?;
    push_symbol(text, Symbol::CloseParenthesis)?;
    push_space(text)
}

/// Adds an always block.
pub fn push_always(text: &mut Vec<u8>, names: &Names, stmt: &Stmt<Net>) -> Result<(), AllocError>
    requires { IsStatementWritable (netlist_of names.now.design.now) (statement_of stmt.now) }
    ensures { OnOk result (AddsWord text.old.items text.new.items (grammar.always_lexemes (statement_tree_lexemes (name_of (netlist_of names.now.design.now)) (register_name (netlist_of names.now.design.now)) (memory_name (netlist_of names.now.design.now)) (statement_of stmt.now)))) }
{
    push_keyword(text, Keyword::Always)?;
    push_space(text)?;
    push_edge(text)?;
    push_statement(text, names, stmt)
}
