// Sets of registers and of slots of the stack.

/// A set of registers and of slots of the stack, a bit for each.
#[derive(Copy, Clone)]
pub(crate) struct Locations {
    registers: u16,
    slots: u64,
}

impl Locations {
    pub(crate) const NONE: Locations = Locations {
        registers: 0,
        slots: 0,
    };

    /// R0 to R5.
    pub(crate) const CALLED: Locations = Locations {
        registers: 0x3f,
        slots: 0,
    };

    pub(crate) fn register(r: u8) -> Locations {
        Locations {
            registers: 1u16.wrapping_shl(u32::from(r)),
            slots: 0,
        }
    }

    pub(crate) fn slot(s: u32) -> Locations {
        Locations {
            registers: 0,
            slots: 1u64.wrapping_shl(s),
        }
    }

    /// Those of either set.
    pub(crate) fn with(self, other: Locations) -> Locations {
        Locations {
            registers: self.registers | other.registers,
            slots: self.slots | other.slots,
        }
    }

    /// Those of both sets.
    pub(crate) fn common(self, other: Locations) -> Locations {
        Locations {
            registers: self.registers & other.registers,
            slots: self.slots & other.slots,
        }
    }

    /// Those of this set alone.
    pub(crate) fn without(self, other: Locations) -> Locations {
        Locations {
            registers: self.registers & !other.registers,
            slots: self.slots & !other.slots,
        }
    }

    pub(crate) fn is_none(self) -> bool {
        self.registers == 0 && self.slots == 0
    }

    pub(crate) fn has_register(self, r: u8) -> bool {
        !self.common(Locations::register(r)).is_none()
    }

    pub(crate) fn has_slot(self, s: u32) -> bool {
        !self.common(Locations::slot(s)).is_none()
    }
}
