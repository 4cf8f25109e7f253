//! The rules of each item of a design.

ghost use Rattle.std.specs.Prelude.{◌≡◌, ◌+◌, ◌==◌, ◌<◌, ◌≤◌, IsTrue, IfSome, length, map, take};
ghost use Rattle.std.specs.List.{list_any};
ghost use Rattle.net_core.specs.View.{netlist_of, tree_of, wire_of, assign_of, statement_of};
ghost use Rattle.net_core.specs.Width as width;
ghost use Rattle.net_core.specs.Width.{full_scope};
ghost use Rattle.design_rules.specs.Formed as formed;
ghost use Rattle.design_rules.specs.Formed.{TellNew, first_broken, declared_rules, wire_rules, assign_rules, always_rules};

use crate::formed::Why;
use crate::formed::names::{is_name, is_new};
use crate::formed::reads::{reads_known, right_known, stmt_known};
use crate::formed::scope::{integer_known, is_output, memories_of, registers_of};
use crate::formed::syntax::{right_spelled, stmt_spelled, tree_spelled};
use crate::formed::targets::{targets_free, targets_known};
use net_core::design::{Assign, Declared, Design, Port, Wire};
use net_core::scope::output_width;
use net_core::tree::{Expr, Net, Stmt};
use net_core::typed::{right_width, stmt_typed, width_of};
use net_core::width::{same, word_fits};

/// Whether a name stands at a place.
#[tactic(auto, using(crate::proofs::FormedNames::name_past))]
fn has_name(design: &Design, place: usize) -> bool
    ensures name { result ≡ formed.has_name (netlist_of design.now) place }
    ensures there { IsTrue result → place < length design.now.names.items }
{
    if place >= design.names.len() {
        return false;
    }
    is_name(design.names[place].as_bytes())
}

/// Whether the widths of what is declared are in their ranges, and its first value fits.
fn declared_fits(item: &Declared) -> bool
    ensures { result ≡ formed.declared_fits item.now }
{
    match item {
        Declared::Integer => true,
        Declared::Register(first) => word_fits(*first),
        Declared::Memory { index, first, .. } => {
            *index >= 1 && *index <= 16 && word_fits(*first)
        }
    }
}

/// The first rule that the declaration of a number breaks.
pub fn broken_by_declared(
    design: &Design,
    flags: Option<&[bool]>,
    k: usize,
    item: &Declared,
) -> Option<Why>
    requires number { k < length design.now.declared.items }
    requires told { IfSome flags (λ all. TellNew (netlist_of design.now).names all.now) }
    ensures { result ≡ first_broken (declared_rules (netlist_of design.now) k item.now) }
{
    let place = design.ports.len() + k;
    if !has_name(design, place) {
        return Some(Why::Syntax);
    }
    if !integer_known(&design.declared[..k], item) {
        return Some(Why::Unknown);
    }
    if !is_new(&design.names, flags, place) {
        return Some(Why::Twice);
    }
    if !declared_fits(item) {
        return Some(Why::Width);
    }
    None
}

/// The place of a wire's name.
fn wire_place(ports: &[Port], declared: &[Declared], wires: &[Wire], k: usize) -> usize
    requires { k < length wires.now }
    ensures { result ≡ length ports.now + length declared.now + k }
{
    prove!(k < wires.len());
    ports.len() + declared.len() + k
}

/// Whether both sides of a wire have one width, of 64 bits at most.
fn wire_fits(design: &Design, k: usize, wire: &Wire) -> bool
    requires { k ≤ length design.now.wires.items }
    ensures { result ≡ formed.wire_fits (netlist_of design.now) k (wire_of wire.now) }
{
    same(wire.width, right_width(design, k, &wire.right)) && wire.width <= 64
}

/// The first rule that the wire of a number breaks.
pub fn broken_by_wire(design: &Design, flags: Option<&[bool]>, k: usize, wire: &Wire) -> Option<Why>
    requires number { k < length design.now.wires.items }
    requires told { IfSome flags (λ all. TellNew (netlist_of design.now).names all.now) }
    ensures { result ≡ first_broken (wire_rules (netlist_of design.now) k (wire_of wire.now)) }
{
    let place = wire_place(&design.ports, &design.declared, &design.wires, k);
    if !has_name(design, place) || !right_spelled(&wire.right) {
        return Some(Why::Syntax);
    }
    if !right_known(design, k, &wire.right) {
        return Some(Why::Unknown);
    }
    if !is_new(&design.names, flags, place) {
        return Some(Why::Twice);
    }
    if !wire_fits(design, k, wire) {
        return Some(Why::Width);
    }
    None
}

/// Whether one of these assigns is of an output.
pub fn is_assigned(made: &[Assign], port: usize) -> bool
    ensures { result ≡ list_any (λ a. a.port == port) made.now }
{
    made.iter().any(|a| a.port as usize == port)
}

/// Whether an assign before that of a number is of the same output.
#[tactic(auto, using(crate::proofs::FormedAssigns::is_assigned_before))]
fn is_assigned_before(design: &Design, k: usize, port: u32) -> bool
    requires { k < length design.now.assigns.items }
    ensures { result ≡ width.is_assigned (take k (map assign_of design.now.assigns.items)) port }
{
    is_assigned(&design.assigns[..k], port as usize)
}

/// The width of an expression where all wires stand before, or 0.
#[tactic(auto, using(net_core::proofs::WireLaws::all_before))]
fn full_width(design: &Design, e: &Expr<Net>) -> u8
    ensures { result ≡ width.width_of (full_scope (netlist_of design.now)) (tree_of e.now) }
{
    width_of(design, design.wires.len(), e)
}

/// Whether both sides of an assign have one width.
fn assign_fits(design: &Design, assign: &Assign) -> bool
    ensures { result ≡ formed.assign_fits (netlist_of design.now) (assign_of assign.now) }
{
    same(
        output_width(&design.ports, assign.port),
        full_width(design, &assign.value),
    )
}

/// The first rule that the assign of a number breaks.
pub fn broken_by_assign(design: &Design, k: usize, assign: &Assign) -> Option<Why>
    requires { k < length design.now.assigns.items }
    ensures { result ≡ first_broken (assign_rules (netlist_of design.now) k (assign_of assign.now)) }
{
    let wires = design.wires.len();
    if !tree_spelled(&assign.value) {
        return Some(Why::Syntax);
    }
    if !is_output(&design.ports, assign.port) || !reads_known(design, wires, &assign.value) {
        return Some(Why::Unknown);
    }
    if is_assigned_before(design, k, assign.port) {
        return Some(Why::Twice);
    }
    if !assign_fits(design, assign) {
        return Some(Why::Width);
    }
    None
}

/// Whether what a block reads and sets is there.
fn block_known(design: &Design, block: &Stmt<Net>) -> bool
    ensures { result ≡ formed.block_known (netlist_of design.now) (statement_of block.now) }
{
    let registers = registers_of(&design.declared);
    let memories = memories_of(&design.declared);
    targets_known(registers, memories, block) && stmt_known(design, design.wires.len(), block)
}

/// Whether conditions have width 1, and both sides of the assignments of a block one width.
#[tactic(auto, using(net_core::proofs::WireLaws::all_before))]
fn block_fits(design: &Design, block: &Stmt<Net>) -> bool
    ensures { result ≡ formed.block_fits (netlist_of design.now) (statement_of block.now) }
{
    stmt_typed(design, design.wires.len(), block)
}

/// Whether what a block sets is set by no block before it.
fn is_free_before(design: &Design, k: usize, block: &Stmt<Net>) -> bool
    requires { k < length design.now.always.items }
    ensures { result ≡ formed.targets_free (take k (map statement_of design.now.always.items)) (statement_of block.now) }
{
    targets_free(block, &design.always[..k])
}

/// The first rule that the always block of a number breaks.
pub fn broken_by_block(design: &Design, k: usize, block: &Stmt<Net>) -> Option<Why>
    requires { k < length design.now.always.items }
    ensures { result ≡ first_broken (always_rules (netlist_of design.now) k (statement_of block.now)) }
{
    if !stmt_spelled(block) {
        return Some(Why::Syntax);
    }
    if !block_known(design, block) {
        return Some(Why::Unknown);
    }
    if !is_free_before(design, k, block) {
        return Some(Why::Twice);
    }
    if !block_fits(design, block) {
        return Some(Why::Width);
    }
    None
}
