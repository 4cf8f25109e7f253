//! Expressions that are single bits.

ghost use Rattle.std.specs.Prelude.{◌≡◌, true};
ghost use Rattle.net_core.specs.declared.tree.Net.{Net};
ghost use Rattle.net_core.specs.View.{tree_of};
ghost use Rattle.net_core.specs.Value.{Env, value};
ghost use Rattle.net_rules.specs.NetSizes.Fitting.{AreFitting, sizes_of};
ghost use Rattle.net_rules.specs.LogicRules.Flags.{IsFlag};

use crate::net_sizes::{Sizes, expr_size};
use net_core::tree::{Expr, Net};

/// Whether an expression is a single bit.
pub(crate) fn is_flag(sizes: &Sizes, e: &Expr<Net>) -> bool
    ensures { result ≡ true → (v : Env Net) → AreFitting (sizes_of sizes.now) v → IsFlag (value v (tree_of e.now)) }
{
    expr_size(sizes, e) == 1
}
