//! A design, section by section.

ghost use Rattle.std.specs.Prelude.{◌+◌, ◌∷◌, ◌++◌, [], IfOk, OnOk, codes, length};
ghost use Rattle.net_core.specs.View.{netlist_of};
ghost use Rattle.design_rules.specs.Formed.{IsWellFormed};
ghost use Rattle.verilog_write.specs.VerilogGrammar.Grammar.{all_always, all_assigns, all_declared, all_wires, items_lexemes, ports_lexemes};
ghost use Rattle.verilog_write.specs.VerilogGrammar.Spelling.{Spells};
ghost use Rattle.verilog_lex.specs.Lexeme.{LKeyword, LName, LSymbol};
ghost use Rattle.verilog_lex.specs.declared.token.Keyword.TheVariants as keyword;
ghost use Rattle.verilog_lex.specs.declared.token.Symbol.TheVariants as symbol;
ghost use Rattle.verilog_write.specs.Adds.{AddsLine};

use crate::item::{push_always, push_assign, push_declaration, push_port_line, push_wire};
use crate::names::{Names, name_at};
use net_core::design::Design;
use std::alloc::{AllocError, Global};
use verilog_lex::{Keyword, Symbol, push_keyword, push_line, push_name, push_space, push_symbol};

/// Adds the ports.
fn push_ports(text: &mut Vec<u8>, design: &Design) -> Result<(), AllocError>
    requires { IsWellFormed (netlist_of design.now) }
    ensures { OnOk result (AddsLine text.old.items text.new.items (ports_lexemes (netlist_of design.now) 0 design.now.ports.items)) }
{
    let ports = design.ports.as_slice();
    for k in 0..ports.len() {
        let name = name_at(&design.names, k);
        push_port_line(text, name, ports[k], k + 1 == ports.len())?;
    }
    Ok(())
}

/// Adds what is declared.
fn push_declared(text: &mut Vec<u8>, names: &Names) -> Result<(), AllocError>
    requires { IsWellFormed (netlist_of names.now.design.now) }
    ensures { OnOk result (AddsLine text.old.items text.new.items (all_declared (netlist_of names.now.design.now) (length names.now.design.now.ports.items) names.now.design.now.declared.items)) }
{
    let design = names.design;
    let ports = design.ports.as_slice();
    let declared = design.declared.as_slice();
    for k in 0..declared.len() {
        let name = name_at(&design.names, ports.len() + k);
        push_declaration(text, names, name, &declared[k])?;
        push_line(text)?;
    }
    Ok(())
}

/// Adds the wires.
fn push_wires(text: &mut Vec<u8>, names: &Names) -> Result<(), AllocError>
    requires { IsWellFormed (netlist_of names.now.design.now) }
    ensures { OnOk result (AddsLine text.old.items text.new.items (all_wires (netlist_of names.now.design.now) (length names.now.design.now.ports.items + length names.now.design.now.declared.items) (netlist_of names.now.design.now).wires)) }
{
    let design = names.design;
    let ports = design.ports.as_slice();
    let declared = design.declared.as_slice();
    let wires = design.wires.as_slice();
    for k in 0..wires.len() {
        let name = name_at(&design.names, ports.len() + declared.len() + k);
        push_wire(text, names, name, &wires[k])?;
        push_line(text)?;
    }
    Ok(())
}

/// Adds what the outputs show.
fn push_assigns(text: &mut Vec<u8>, names: &Names) -> Result<(), AllocError>
    requires { IsWellFormed (netlist_of names.now.design.now) }
    ensures { OnOk result (AddsLine text.old.items text.new.items (all_assigns (netlist_of names.now.design.now) (netlist_of names.now.design.now).assigns)) }
{
    let design = names.design;
    let assigns = design.assigns.as_slice();
    for k in 0..assigns.len() {
        let assign = &assigns[k];
        let name = name_at(&design.names, assign.port as usize);
        push_assign(text, names, name, &assign.value)?;
        push_line(text)?;
    }
    Ok(())
}

/// Adds the always blocks.
fn push_blocks(text: &mut Vec<u8>, names: &Names) -> Result<(), AllocError>
    requires { IsWellFormed (netlist_of names.now.design.now) }
    ensures { OnOk result (AddsLine text.old.items text.new.items (all_always (netlist_of names.now.design.now) (netlist_of names.now.design.now).always)) }
{
    let design = names.design;
    let always = design.always.as_slice();
    for k in 0..always.len() {
        push_always(text, names, &always[k])?;
        push_line(text)?;
    }
    Ok(())
}

/// Adds what stands before the items.
fn push_head(text: &mut Vec<u8>, design: &Design) -> Result<(), AllocError>
    requires { IsWellFormed (netlist_of design.now) }
    ensures { OnOk result (AddsLine text.old.items text.new.items (LKeyword keyword.Module ∷ LName (codes "ehdl") ∷ LSymbol symbol.OpenParenthesis ∷ (ports_lexemes (netlist_of design.now) 0 design.now.ports.items ++ LSymbol symbol.CloseParenthesis ∷ LSymbol symbol.Semicolon ∷ []))) }
{
    push_keyword(text, Keyword::Module)?;
    push_space(text)?;
    push_name(text, b"ehdl")?;
    push_symbol(text, Symbol::OpenParenthesis)?;
    push_line(text)?;
    push_ports(text, design)?;
    push_symbol(text, Symbol::CloseParenthesis)?;
    push_symbol(text, Symbol::Semicolon)?;
    push_line(text)
}

/// Adds the items.
fn push_items(text: &mut Vec<u8>, names: &Names) -> Result<(), AllocError>
    requires { IsWellFormed (netlist_of names.now.design.now) }
    ensures { OnOk result (AddsLine text.old.items text.new.items (items_lexemes (netlist_of names.now.design.now))) }
{
    push_declared(text, names)?;
    push_wires(text, names)?;
    push_assigns(text, names)?;
    push_blocks(text, names)
}

/// The text of a design that is well formed, which it spells.
pub fn write_text(alloc: Global, design: &Design) -> Result<Vec<u8>, AllocError>
    requires { IsWellFormed (netlist_of design.now) }
    ensures { IfOk result (λ text. Spells text.items (netlist_of design.now)) }
{
    let names = Names::new(alloc, design)?;
    let mut text = Vec::new(alloc);
    push_head(&mut text, design)?;
    push_items(&mut text, &names)?;
    push_keyword(&mut text, Keyword::Endmodule)?;
    push_line(&mut text)?;
    Ok(text)
}
