//! Statements. Those of a block stand on lines of their own.

ghost use Rattle.std.specs.Prelude.{◌∷◌, ◌++◌, [], OnOk};
ghost use Rattle.net_core.specs.Names.{name_of};
ghost use Rattle.net_core.specs.View.{netlist_of, tree_of, statement_of, statements_of};
ghost use Rattle.net_core.specs.declared.tree.Net.TheVariants.{Register, Memory};
ghost use Rattle.verilog_write.specs.VerilogGrammar.Grammar.{register_name, memory_name, tree_lexemes, statement_tree_lexemes, statement_trees_lexemes};
ghost use Rattle.verilog_lex.specs.Lexeme.{LKeyword, LName, LSymbol};
ghost use Rattle.verilog_lex.specs.declared.token.Keyword.TheVariants as keyword;
ghost use Rattle.verilog_lex.specs.declared.token.Symbol.TheVariants as symbol;
ghost use Rattle.verilog_write.specs.Adds.{AddsWord, AddsMark, AddsLine};
ghost use Rattle.verilog_write.specs.Writable.{IsNamed, IsWritable, IsStatementWritable, AreStatementsWritable};

use crate::expression::{push_expression, push_net};
use crate::names::Names;
use crate::spaced::push_operator;
use net_core::tree::{Expr, Net, Stmt, Stmts};
use std::alloc::AllocError;
use verilog_lex::{Keyword, Symbol, push_keyword, push_line, push_space, push_symbol};

/// Adds `if` and a condition.
fn push_condition(text: &mut Vec<u8>, names: &Names, c: &Expr<Net>) -> Result<(), AllocError>
    requires { IsWritable (netlist_of names.now.design.now) (tree_of c.now) }
    ensures { OnOk result (AddsLine text.old.items text.new.items (LKeyword keyword.If ∷ LSymbol symbol.OpenParenthesis ∷ (tree_lexemes (name_of (netlist_of names.now.design.now)) (tree_of c.now) ++ LSymbol symbol.CloseParenthesis ∷ []))) }
{
    push_keyword(text, Keyword::If)?;
    push_space(text)?;
    push_symbol(text, Symbol::OpenParenthesis)?;
    push_expression(text, names, c)?;
    push_symbol(text, Symbol::CloseParenthesis)?;
    push_space(text)
}

/// Adds `else`, on a line of its own.
fn push_else(text: &mut Vec<u8>) -> Result<(), AllocError>
    ensures { OnOk result (AddsMark text.old.items text.new.items (LKeyword keyword.Else ∷ [])) }
{
    push_line(text)?;
    push_keyword(text, Keyword::Else)?;
    push_space(text)
}

/// Adds an assignment to a register.
fn push_set(
    text: &mut Vec<u8>,
    names: &Names,
    register: u32,
    value: &Expr<Net>,
) -> Result<(), AllocError>
    requires name { IsNamed (netlist_of names.now.design.now) (Register register) }
    requires value { IsWritable (netlist_of names.now.design.now) (tree_of value.now) }
    ensures { OnOk result (AddsWord text.old.items text.new.items (LName (register_name (netlist_of names.now.design.now) register) ∷ LSymbol symbol.LessEqual ∷ (tree_lexemes (name_of (netlist_of names.now.design.now)) (tree_of value.now) ++ LSymbol symbol.Semicolon ∷ []))) }
{
    push_net(text, names, Net::Register(register))?;
    push_operator(text, Symbol::LessEqual)?;
    push_expression(text, names, value)?;
    push_symbol(text, Symbol::Semicolon)
}

/// Adds an assignment to a word of a memory.
fn push_store(
    text: &mut Vec<u8>,
    names: &Names,
    memory: u32,
    index: &Expr<Net>,
    value: &Expr<Net>,
) -> Result<(), AllocError>
    requires name { IsNamed (netlist_of names.now.design.now) (Memory memory) }
    requires index { IsWritable (netlist_of names.now.design.now) (tree_of index.now) }
    requires value { IsWritable (netlist_of names.now.design.now) (tree_of value.now) }
    ensures { OnOk result (AddsWord text.old.items text.new.items (LName (memory_name (netlist_of names.now.design.now) memory) ∷ LSymbol symbol.OpenBracket ∷ (tree_lexemes (name_of (netlist_of names.now.design.now)) (tree_of index.now) ++ LSymbol symbol.CloseBracket ∷ LSymbol symbol.LessEqual ∷ (tree_lexemes (name_of (netlist_of names.now.design.now)) (tree_of value.now) ++ LSymbol symbol.Semicolon ∷ [])))) }
{
    push_net(text, names, Net::Memory(memory))?;
    push_symbol(text, Symbol::OpenBracket)?;
    push_expression(text, names, index)?;
    push_symbol(text, Symbol::CloseBracket)?;
    push_operator(text, Symbol::LessEqual)?;
    push_expression(text, names, value)?;
    push_symbol(text, Symbol::Semicolon)
}

/// Adds a statement to a closed text.
#[cycle(statement)]
pub fn push_statement(text: &mut Vec<u8>, names: &Names, stmt: &Stmt<Net>) -> Result<(), AllocError>
    requires { IsStatementWritable (netlist_of names.now.design.now) (statement_of stmt.now) }
    ensures { OnOk result (AddsWord text.old.items text.new.items (statement_tree_lexemes (name_of (netlist_of names.now.design.now)) (register_name (netlist_of names.now.design.now)) (memory_name (netlist_of names.now.design.now)) (statement_of stmt.now))) }
{
    match stmt {
        Stmt::Block(more) => {
            push_keyword(text, Keyword::Begin)?;
            push_line(text)?;
            push_statements(text, names, more)?;
            push_keyword(text, Keyword::End)
        }
        Stmt::If(c, a) => {
            push_condition(text, names, c)?;
            push_statement(text, names, a)
        }
        Stmt::IfElse(c, a, b) => {
            push_condition(text, names, c)?;
            push_statement(text, names, a)?;
            push_else(text)?;
            push_statement(text, names, b)
        }
        Stmt::Set(register, value) => push_set(text, names, *register, value),
        Stmt::Store(memory, index, value) => push_store(text, names, *memory, index, value),
    }
}

/// Adds the statements of a block.
#[cycle(statement)]
fn push_statements(text: &mut Vec<u8>, names: &Names, more: &Stmts<Net>) -> Result<(), AllocError>
    requires { AreStatementsWritable (netlist_of names.now.design.now) (statements_of more.now) }
    ensures { OnOk result (AddsLine text.old.items text.new.items (statement_trees_lexemes (name_of (netlist_of names.now.design.now)) (register_name (netlist_of names.now.design.now)) (memory_name (netlist_of names.now.design.now)) (statements_of more.now))) }
{
    let mut left = more;
    while let Stmts::Then(first, rest) = left {
        push_statement(text, names, first)?;
        push_line(text)?;
        left = rest;
    }
    Ok(())
}
