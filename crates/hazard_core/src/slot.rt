//! The slots of a table.

ghost use Rattle.std.specs.Prelude.{◌≡◌, not, position};
ghost use Rattle.hazard_core.specs.Tables.{has_key, slot_of, free_slot, used_count};

use xdp_maps::short::ShortBytes;

/// A slot of a map's table: whether it is used, and if so its key and its value.
#[derive(Debug, Drop)]
pub struct Slot {
    pub used: bool,
    pub key: ShortBytes,
    pub value: ShortBytes,
}

impl Slot {
    /// Whether it is used under a key.
    pub fn has_key(&self, key: &[u8]) -> bool
        ensures { result ≡ has_key key.now self.now }
    {
        self.used && self.key.as_slice() == key
    }

    pub fn copied(&self) -> Slot
        ensures { result ≡ self.now }
    {
        Slot {
            used: self.used,
            key: self.key.copied(),
            value: self.value.copied(),
        }
    }
}

/// The first slot that is used under a key, if there is one.
fn first_under(slots: &[Slot], key: &[u8]) -> Option<usize>
    ensures { result ≡ position (has_key key.now) slots.now }
{
    slots.iter().position(|slot| slot.has_key(key))
}

/// The first slot that is used under a key, or the number of slots.
pub fn slot_of(slots: &[Slot], key: &[u8]) -> usize
    ensures { result ≡ slot_of slots.now key.now }
{
    first_under(slots, key).unwrap_or(slots.len())
}

/// The first slot that is not used, if there is one.
fn first_free(slots: &[Slot]) -> Option<usize>
    ensures { result ≡ position (λ s. not s.used) slots.now }
{
    slots.iter().position(|slot| !slot.used)
}

/// The first slot that is not used, or the number of slots.
pub fn free_slot(slots: &[Slot]) -> usize
    ensures { result ≡ free_slot slots.now }
{
    first_free(slots).unwrap_or(slots.len())
}

/// How many slots are used.
pub fn used_count(slots: &[Slot]) -> usize
    ensures { result ≡ used_count slots.now }
{
    slots.iter().filter(|slot| slot.used).count()
}
