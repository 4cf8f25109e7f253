//! Pointers to entries of maps.

ghost use Rattle.std.specs.Prelude.{◌≡◌};

/// A pointer to an entry, as a packet holds it.
#[derive(Copy, Clone, Debug, PartialEq, Eq)]
pub enum Pointer {
    Null,
    /// To the entry in this slot of its map's table.
    InSlot(usize),
    /// To the entry that an update of the packet's own is to make, by the number of its site.
    Pending(usize),
}

impl Pointer {
    ghost use Rattle.hazard_core.specs.StageValues.{is_null, same_pointer};

    pub fn is_null(self) -> bool
        ensures { result ≡ is_null self }
    {
        matches!(self, Pointer::Null)
    }

    /// Whether it is the same pointer.
    pub fn is_same(self, other: Pointer) -> bool
        ensures { result ≡ same_pointer self other }
    {
        match (self, other) {
            (Pointer::Null, Pointer::Null) => true,
            (Pointer::InSlot(n), Pointer::InSlot(m)) => n == m,
            (Pointer::Pending(j), Pointer::Pending(i)) => j == i,
            _ => false,
        }
    }
}
