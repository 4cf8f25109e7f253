// Places in memory, and the numbers that stand there.

ghost use Rattle.std.specs.Prelude.{◌≡◌, ◌+◌, ◌-◌, ◌*◌, ◌%◌, ◌^◌, ◌<◌, ◌≤◌, ◌+ℤ◌, pos, length, IfSome};
ghost use Rattle.byteorder.specs.Endian.{little_number, little_bytes};
ghost use Rattle.xdp_machine.specs.xdp_maps.Calls.{patched};
ghost use Rattle.xdp_machine.specs.Memory.{bytes_in, inside, aligned, number_at};

use byteorder::{ByteOrder, LittleEndian};
use xdp_machine::bpf_isa::Size;

/// How many bytes an access has.
pub fn bytes_in(size: Size) -> usize
    ensures value { result ≡ bytes_in size }
    ensures some { 1 ≤ result }
    ensures few { result ≤ 8 }
{
    match size {
        Size::B => 1,
        Size::H => 2,
        Size::W => 4,
        Size::Dw => 8,
    }
}

/// Where an access of `n` bytes begins, if it lies in `len`.
pub fn inside(at: i128, n: usize, len: usize) -> Option<usize>
    requires { n ≤ 64 }
    ensures value { result ≡ inside at n len }
    ensures within { IfSome result (λ a. a + n ≤ len) }
{
    if at < 0 || at > len as i128 {
        return None;
    }
    let start = at as usize;
    if n <= len - start { Some(start) } else { None }
}

/// The same at a multiple of `n`.
pub fn aligned(at: i128, n: usize, len: usize) -> Option<usize>
    requires some { 1 ≤ n }
    requires few { n ≤ 64 }
    ensures value { result ≡ aligned at n len }
    ensures within { IfSome result (λ a. a + n ≤ len) }
    ensures multiple { IfSome result (λ a. a % n ≡ 0) }
{
    let start = inside(at, n, len)?;
    if start % n == 0 { Some(start) } else { None }
}

/// The number at a place, the low byte first.
pub fn number_at(bytes: &[u8], at: usize, size: Size) -> u64
    requires { at + bytes_in size ≤ length bytes.now }
    ensures value { result ≡ number_at size at bytes.now }
    ensures word { result < 2 ^ (8 * bytes_in size) }
{
    match size {
        Size::B => u64::from(bytes[at]),
        Size::H => u64::from(LittleEndian::read_u16(&bytes[at..at + 2])),
        Size::W => u64::from(LittleEndian::read_u32(&bytes[at..at + 4])),
        Size::Dw => LittleEndian::read_u64(&bytes[at..at + 8]),
    }
}

/// The bytes of a number, the low one first.
pub fn bytes_of(n: u64) -> [u8; 8]
    ensures { result ≡ little_bytes 8 n }
{
    let mut bytes = [0; 8];
    LittleEndian::write_u64(&mut bytes, n);
    bytes
}

/// Writes the low bytes of a number from a place on.
#[tactic(auto, using(xdp_machine::proofs::SizeLaws::low_part))]
pub fn write_number(bytes: &mut [u8], at: usize, size: Size, n: u64)
    requires { at + bytes_in size ≤ length bytes.old }
    ensures { bytes.new ≡ patched bytes.old at (little_bytes (bytes_in size) n) }
{
    let count = bytes_in(size);
    let all = bytes_of(n);
    bytes[at..at + count].copy_from_slice(&all[..count]);
}

/// A number of eight bytes with the low bytes of another written over some of its own.
pub fn patched_number(old: u64, at: usize, size: Size, n: u64) -> u64
    requires { at + bytes_in size ≤ 8 }
    ensures { result ≡ little_number 8 (patched (little_bytes 8 old) at (little_bytes (bytes_in size) n)) }
{
    let mut bytes = bytes_of(old);
    write_number(&mut bytes, at, size, n);
    LittleEndian::read_u64(&bytes)
}
