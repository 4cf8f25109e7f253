//! Laws of tables of slots: what they hold are bytes, and no slot comes or goes. They stand here as contracts of functions that
//! compute nothing.

pub mod laws;
