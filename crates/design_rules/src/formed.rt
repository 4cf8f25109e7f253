//! Whether a text of the subset can spell a design, and the first fault of one that none spells.

mod items;
mod names;
mod ports;
mod reads;
mod scope;
mod sections;
mod syntax;
mod targets;

ghost use Rattle.std.specs.Prelude.{◌≡◌};
ghost use Rattle.net_core.specs.View.{netlist_of};
ghost use Rattle.design_rules.specs.Formed as formed;

pub use crate::formed::names::is_name;
pub use crate::formed::ports::{name_matches, port_matches};
use crate::formed::sections::first_fault;
use net_core::design::Design;
use thiserror::Error;

/// A rule that a design breaks.
#[derive(Clone, Copy, PartialEq, Eq, Debug, Error)]
pub enum Why {
    /// The grammar has no such text.
    #[error("the grammar does not have it")]
    Syntax,
    /// A net that is read or set is not there, or not as what it is used.
    #[error("a name without an earlier declaration of the sort needed")]
    Unknown,
    /// A second declaration, assign, or always block for a target.
    #[error("a second declaration, assign or always block")]
    Twice,
    /// A width, a range or a bound.
    #[error("a width, a range or a bound")]
    Width,
    /// The ports differ, or an output has no assign.
    #[error("ports that differ, or an output without assign")]
    Ports,
}

/// The first fault of a design: the number of its item, and the first rule that this item breaks.
#[derive(Clone, Copy, PartialEq, Eq, Debug, Error)]
#[error("item {item}: {why}")]
pub struct NetError {
    pub item: usize,
    pub why: Why,
}

/// Whether a text of the subset spells a design, or its first fault: the first item that breaks a rule, and the first rule
/// that it breaks, in the order of [`Why`]. What is wrong with the ports or has no item of its own stands after all items.
pub fn well_formed(design: &Design) -> Result<(), NetError>
    ensures { result ≡ formed.result_of (formed.first_fault (netlist_of design.now)) }
{
    match first_fault(design) {
        None => Ok(()),
        Some(fault) => Err(fault),
    }
}
