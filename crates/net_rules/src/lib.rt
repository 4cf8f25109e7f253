//! Expressions of the same value with fewer operators.
//! `net_sizes` says how many bits words have, `logic_rules` rewrites by these sizes, `building` makes expressions of parts that may have failed.
#![tactic(auto)]

pub mod building;
pub mod logic_rules;
pub mod net_sizes;
