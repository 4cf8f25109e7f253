//! The header of a capture.

ghost use Rattle.std.specs.Prelude.{◌≡◌, ◌≤◌, length, Ok, Err};
ghost use Rattle.pcap_core.specs.Format.{header_bytes};
ghost use Rattle.pcap_core.specs.Reading.{order_of, tested, header_of, is_magic};
ghost use Rattle.pcap_core.specs.declared.order.Order.TheVariants.{Little};

use crate::error::PcapError;
use crate::order::Order;
use byteorder::{ByteOrder, LittleEndian};

/// The magic number of a capture whose fractions are microseconds.
pub const MICROSECONDS: u32 = 0xa1b2_c3d4;

/// The magic number of a capture whose fractions are nanoseconds.
pub const NANOSECONDS: u32 = 0xa1b2_3c4d;

/// How many bytes a header has.
pub(crate) const HEADER_BYTES: usize = 24;

/// The order of bytes that a header's magic number shows, where the header has no fault.
#[tactic(auto, unfolding(crate::specs::Reading::header_of))]
pub(crate) fn header_of(bytes: &[u8]) -> Result<Order, PcapError>
    ensures { result ≡ header_of bytes.now }
{
    if bytes.len() < HEADER_BYTES {
        return Err(PcapError::Short { at: 0 });
    }
    let Some(order) = order_of(bytes) else {
        return Err(PcapError::Magic);
    };
    if order.u16_at(&bytes[4..]) != 2 || order.u16_at(&bytes[6..]) != 4 {
        return Err(PcapError::Version);
    }
    let link = order.u32_at(&bytes[20..]);
    if link != 1 {
        return Err(PcapError::Link { n: link });
    }
    Ok(order)
}

/// The order in which the first four bytes are a magic number.
fn order_of(bytes: &[u8]) -> Option<Order>
    requires { 4 ≤ length bytes.now }
    ensures { result ≡ order_of bytes.now }
{
    if is_magic(Order::Little.u32_at(bytes)) {
        Some(Order::Little)
    } else if is_magic(Order::Big.u32_at(bytes)) {
        Some(Order::Big)
    } else {
        None
    }
}

fn is_magic(number: u32) -> bool
    ensures { result ≡ is_magic number }
{
    number == MICROSECONDS || number == NANOSECONDS
}

/// The bytes of a header to be written, the lowest byte of a number first: version 2.4, no zone, no
/// accuracy, a snap length of 65,535 and link type 1.
#[tactic(auto, unfolding(crate::specs::Number::spelled))]
pub fn write_header(magic: u32) -> [u8; 24]
    ensures { result ≡ header_bytes (record { order = Little; magic = magic; zone = 0; accuracy = 0; snap = 65535 }) }
{
    let mut header = [0; 24];
    LittleEndian::write_u32(&mut header[0..4], magic);
    LittleEndian::write_u16(&mut header[4..6], 2);
    LittleEndian::write_u16(&mut header[6..8], 4);
    LittleEndian::write_u32(&mut header[16..20], 65535);
    LittleEndian::write_u32(&mut header[20..24], 1);
    header
}
