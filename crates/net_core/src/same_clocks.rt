//! Designs that show the same from the first clock on, whatever they store. It stands here as definitions and laws.

pub mod laws;
