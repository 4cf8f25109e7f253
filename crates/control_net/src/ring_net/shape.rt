//! The sizes of control.

ghost use Rattle.std.specs.Prelude.{ℕ, ◌≡◌, ◌<◌, ◌≤◌, ◌^◌};

/// How large a pipeline is.
#[derive(Clone, Copy)]
pub struct ControlShape {
    /// How many frames may be inside: the slots of the ring.
    pub slots: u32,
    /// The width in bits of a slot's number.
    pub slot_bits: u8,
    /// The number of the last place, from 0 on.
    pub stages: u32,
    /// The place at which packets are counted as passed.
    pub commit: u32,
    pub ghost some: { 0 < slots },
    pub ghost fits: { slots ≤ 2 ^ slot_bits },
    pub ghost wide: { 0 < slot_bits },
    pub ghost narrow: { slot_bits ≤ 16 },
    pub ghost few: { stages < 2 ^ 16 },
    pub ghost within: { commit ≤ stages },
}

impl ControlShape {
    /// The sizes of a ring of so many slots and of places up to a last one, with as few bits for a slot as do.
    pub fn new(slots: u32, stages: u32, commit: u32) -> ControlShape
        requires some { 0 < slots }
        requires indexes { slots ≤ 2 ^ 16 }
        requires few { stages < 2 ^ 16 }
        requires within { commit ≤ stages }
        ensures slots { result.slots ≡ slots }
        ensures stages { result.stages ≡ stages }
        ensures commit { result.commit ≡ commit }
        ensures least { (w : ℕ) → 0 < w → slots ≤ 2 ^ w → result.slot_bits ≤ w }
    {
        let slot_bits = bits_for(slots);
        ControlShape {
            slots,
            slot_bits,
            stages,
            commit,
        }
    }
}

// The width of one bit or more in which the numbers below a bound fit.
fn bits_for(bound: u32) -> u8
    requires { bound ≤ 2 ^ 16 }
    ensures wide { 0 < result }
    ensures narrow { result ≤ 16 }
    ensures fits { bound ≤ 2 ^ result }
    ensures least { (w : ℕ) → 0 < w → bound ≤ 2 ^ w → result ≤ w }
{
    let mut bits = 1;
    while bound > 1u32 << bits {
        bits += 1;
    }
    bits
}
