//! BTF, the type format of eBPF objects: a view of its bytes that finds variables by their names, and reads the map
//! definitions that they are.
#![tactic(auto)]

mod error;
mod fields;
mod header;
mod kind;
mod members;
mod name;
mod read;
mod shape;
mod sizes;
mod strings;
mod types;
mod vars;
mod view;

pub use crate::error::BtfError;
pub use crate::fields::MapFields;
pub use crate::view::BtfView;
