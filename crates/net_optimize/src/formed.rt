//! Whether designs keep the rules that texts ask for.

ghost use Rattle.std.specs.Prelude.{◌≡◌, true, IfOk, IsTrue};
ghost use Rattle.net_core.specs.View.{netlist_of};
ghost use Rattle.design_rules.specs.Formed.{IsWellFormed};
ghost use Rattle.net_core.specs.ProductRules.Products.{no_product_chains};

use design_rules::formed::well_formed;
use net_core::design::Design;
use net_core::product_rules::has_no_product_chains;
use std::alloc::{AllocError, Global};

/// Whether a design is well formed, with products apart. Takes time in the square of its registers.
pub(crate) fn keeps_rules(alloc: Global, design: &Design) -> Result<bool, AllocError>
    ensures formed { IfOk result (λ is. is ≡ true → IsWellFormed (netlist_of design.now)) }
    ensures apart { IfOk result (λ is. is ≡ true → IsTrue (no_product_chains (netlist_of design.now))) }
{
    if well_formed(design).is_ok() && has_no_product_chains(alloc, design)? {
        return Ok(true);
    }
    Ok(false)
}
