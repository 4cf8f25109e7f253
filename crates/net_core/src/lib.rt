//! Designs as data: trees of nets, the rules of widths, the values of expressions, and one clock.
//! `product_rules` says whether a product stands inside another, `same_clocks` when two designs show the same, `net_trees` when two expressions are equal.
#![tactic(auto)]

pub mod build;
pub mod design;
pub mod laws;
pub mod net_trees;
pub mod ports;
pub mod product_rules;
pub mod same_clocks;
pub mod scope;
pub mod tree;
pub mod typed;
pub mod width;
