//! Why there is no edge.

ghost use Rattle.std.specs.Prelude.{MatchOption};
ghost use Rattle.event_sim.specs.Views.{state_of};
ghost use Rattle.event_sim.specs.Inside.{IsState};
ghost use Rattle.event_sim.specs.Refusals.{MayEdge, IsRefused};

use crate::nets::{first_active, first_stop};
use crate::order::is_order;
use crate::values::Values;
use net_core::design::Design;
use thiserror::Error;

/// Why there is no edge.
#[derive(Clone, Copy, PartialEq, Eq, Debug, Error)]
pub enum EdgeError {
    /// This net is active, the first.
    #[error("net {net} does not store the value of its right side")]
    Busy { net: u32 },
    /// The order does not name each always block once.
    #[error("an order that does not name each always block once")]
    Order,
    /// The divisor of this wire is zero, the first.
    #[error("the divisor of wire {net} is zero")]
    XValue { net: u32 },
}

/// What stands against an edge, if something does.
pub fn refusal(design: &Design, values: &Values, blocks: &[u32]) -> Option<EdgeError>
    requires { IsState (state_of design.now values.now) }
    ensures { MatchOption result (MayEdge (state_of design.now values.now) blocks.now) (λ e. IsRefused (state_of design.now values.now) blocks.now e) }
{
    if let Some(net) = first_active(design, values) {
        return Some(EdgeError::Busy { net });
    }
    if !is_order(blocks, design.always.len()) {
        return Some(EdgeError::Order);
    }
    match first_stop(design, values) {
        Some(net) => Some(EdgeError::XValue { net }),
        None => None,
    }
}
