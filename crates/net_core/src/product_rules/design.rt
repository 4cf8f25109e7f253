//! Products in a whole design.

ghost use Rattle.std.specs.Prelude.{◌≡◌, map, IfOk};
ghost use Rattle.net_core.specs.View.{netlist_of, assign_of, statement_of};
ghost use Rattle.net_core.specs.ProductRules.Products as products;

use crate::design::{Assign, Design};
use crate::product_rules::statements::{is_flat, statement_flat};
use crate::product_rules::trees::in_right;
use crate::tree::{Net, Stmt};
use std::alloc::{AllocError, Global};

/// Whether what each output shows has its products apart.
fn assigns_flat(marks: &[bool], assigns: &[Assign]) -> bool
    ensures { result ≡ products.assigns_flat marks.now (map assign_of assigns.now) }
{
    for assign in assigns {
        if !is_flat(marks, &assign.value) {
            return false;
        }
    }
    true
}

/// Whether each always block has its products apart.
fn always_flat(marks: &[bool], always: &[Stmt<Net>]) -> bool
    ensures { result ≡ products.always_flat marks.now (map statement_of always.now) }
{
    for stmt in always {
        if !statement_flat(marks, stmt) {
            return false;
        }
    }
    true
}

/// Whether no product of a design stands inside an operand of another in one clock. Each tree is walked once.
pub fn has_no_product_chains(alloc: Global, design: &Design) -> Result<bool, AllocError>
    ensures { IfOk result (λ apart. apart ≡ products.no_product_chains (netlist_of design.now)) }
{
    // of each wire so far, whether a product stands in it
    let mut marks = Vec::new(alloc);
    for wire in &design.wires {
        let found = in_right(&marks, &wire.right);
        if !found.apart {
            return Ok(false);
        }
        marks.push(found.product)?;
    }
    Ok(assigns_flat(&marks, &design.assigns) && always_flat(&marks, &design.always))
}
