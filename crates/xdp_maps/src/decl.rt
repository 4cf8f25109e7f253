//! Declarations of maps.
ghost use Rattle.std.specs.Prelude.{◌≡◌, ◌↔◌, IsTrue};
ghost use Rattle.xdp_maps.specs.Contents.{IsWithinLimits};

use crate::short::ShortBytes;

#[derive(Copy, Clone, Debug, PartialEq, Eq)]
pub enum MapKind {
    Hash,
    Array,
}

/// A map as a program declares it: the bytes of a key and of a value, and how many entries there can be.
#[derive(Debug, Drop)]
pub struct MapDecl {
    pub name: ShortBytes,
    pub kind: MapKind,
    pub key: u32,
    pub value: u32,
    pub cap: u32,
}

impl MapDecl {
    /// Whether it is within the limits of its kind.
    pub fn is_within_limits(&self) -> bool
        ensures { IsTrue result ↔ IsWithinLimits self.now }
    {
        let by_kind = match self.kind {
            MapKind::Hash => self.cap <= 1024,
            MapKind::Array => self.key == 4 && self.cap <= 65536,
        };
        by_kind
            && 0 < self.key
            && self.key <= 40
            && 0 < self.value
            && self.value <= 64
            && 0 < self.cap
    }

    pub fn copied(&self) -> MapDecl
        ensures { result ≡ self.now }
    {
        MapDecl {
            name: self.name.copied(),
            kind: self.kind,
            key: self.key,
            value: self.value,
            cap: self.cap,
        }
    }
}
