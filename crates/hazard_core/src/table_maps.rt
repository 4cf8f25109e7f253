//! The maps that tables of slots stand for, copied into memory of their own.

mod maps;

pub use crate::table_maps::maps::maps_of;
