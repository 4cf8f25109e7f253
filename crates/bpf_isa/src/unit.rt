// The eight bytes of a unit (RFC 9669, section 3).

ghost use Rattle.std.specs.Prelude.{◌≡◌, ◌≤◌, ◌<◌, ◌++◌, length, take, drop};
ghost use Rattle.bpf_isa.specs.Spelling.{unit};

use byteorder::{ByteOrder, LittleEndian};

/// The fields of a unit, the registers and the immediate number as they stand.
#[derive(Copy, Clone)]
pub struct Unit {
    pub code: u8,
    pub dst: u8,
    pub src: u8,
    pub offset: i16,
    pub imm: u32,
}

impl Unit {
    /// The unit at the front of bytes.
    pub fn read(bytes: &[u8]) -> Unit
        requires { 8 ≤ length bytes.now }
        ensures bytes { take 8 bytes.now ≡ unit result.code result.dst result.src result.offset result.imm }
        ensures dst { result.dst < 16 }
        ensures src { result.src < 16 }
    {
        Unit {
            code: bytes[0],
            dst: bytes[1] % 16,
            src: bytes[1] / 16,
            offset: LittleEndian::read_i16(&bytes[2..4]),
            imm: LittleEndian::read_u32(&bytes[4..8]),
        }
    }

    /// Writes the unit to the front of bytes.
    pub fn write(&self, bytes: &mut [u8])
        requires room { 8 ≤ length bytes.old }
        requires dst { self.now.dst < 16 }
        requires src { self.now.src < 16 }
        ensures { bytes.new ≡ unit self.now.code self.now.dst self.now.src self.now.offset self.now.imm ++ drop 8 bytes.old }
    {
        bytes[0] = self.code;
        bytes[1] = self.dst + 16 * self.src;
        LittleEndian::write_i16(&mut bytes[2..4], self.offset);
        LittleEndian::write_u32(&mut bytes[4..8], self.imm);
    }
}
