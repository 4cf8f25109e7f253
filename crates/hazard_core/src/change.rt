//! Changes of tables.

use xdp_maps::short::ShortBytes;

/// A change of a table: the slot of a map that is written, the key that stands there, and whether the key comes or goes.
#[derive(Debug, Drop)]
pub struct Change {
    pub map: u32,
    pub slot: usize,
    pub key: ShortBytes,
    pub presence: bool,
}
