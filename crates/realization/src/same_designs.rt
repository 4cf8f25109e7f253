//! A design that shows the same as another one meets what that one meets. It stands here as laws.

pub mod laws;
