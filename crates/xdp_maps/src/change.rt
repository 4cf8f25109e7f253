//! Atomic changes of a number in memory (RFC 9669, section 5.3).
ghost use Rattle.std.specs.Prelude.{◌≡◌, ◌+◌, ◌<◌, ◌^◌, ◌≤◌, length};

use byteorder::{ByteOrder, LittleEndian};

/// How the new number comes from the old one.
#[derive(Copy, Clone, Debug, PartialEq, Eq)]
pub enum ChangeKind {
    Add,
    Or,
    And,
    Xor,
    /// The source takes the old number's place.
    Xchg,
    /// The source takes the old number's place where that equals what it is compared with.
    Cmpxchg,
}

/// One atomic change of eight bytes, or of four where it is not wide. Of `source` and `compare` only
/// the part of that width counts; `compare` counts for `Cmpxchg` alone.
#[derive(Copy, Clone, Debug, PartialEq, Eq)]
pub struct Change {
    pub kind: ChangeKind,
    pub wide: bool,
    pub source: u64,
    pub compare: u64,
}

impl Change {
    ghost use Rattle.xdp_maps.specs.Calls.{change_bytes, change_result, number_at, part_of};

    /// How many bytes the change reads and writes.
    pub fn bytes(self) -> usize
        ensures { result ≡ change_bytes self.wide }
    {
        if self.wide { 8 } else { 4 }
    }

    fn part(self, n: u64) -> u64
        ensures { result ≡ part_of self.wide n }
    {
        if self.wide { n } else { n % (1 << 32) }
    }

    /// The new number, from an old one of the change's width.
    pub fn result_on(self, old: u64) -> u64
        requires { part_of self.wide old ≡ old }
        ensures { result ≡ change_result self old }
    {
        let source = self.part(self.source);
        match self.kind {
            ChangeKind::Add => self.part(old.wrapping_add(source)),
            ChangeKind::Or => old | source,
            ChangeKind::And => old & source,
            ChangeKind::Xor => old ^ source,
            ChangeKind::Xchg => source,
            ChangeKind::Cmpxchg => {
                if old == self.part(self.compare) {
                    source
                } else {
                    old
                }
            }
        }
    }

    /// The number of the change's width at a place, the low byte first.
    pub fn number_at(self, value: &[u8], at: usize) -> u64
        requires { at + change_bytes self.wide ≤ length value.now }
        ensures number { result ≡ number_at self.wide at value.now }
        ensures fits { part_of self.wide result ≡ result }
    {
        if self.wide {
            LittleEndian::read_u64(&value[at..at + 8])
        } else {
            u64::from(LittleEndian::read_u32(&value[at..at + 4]))
        }
    }
}
