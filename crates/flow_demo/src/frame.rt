//! Frames whose bytes are drawn.

ghost use Rattle.std.specs.Prelude.{◌≡◌, length};
ghost use Rattle.flow_demo.specs.Draws.{state_after};
ghost use Rattle.flow_demo.specs.Packets.{byte_at, bytes_from};

use crate::draws::Draws;

/// The byte at a place of a frame, by its draw.
fn byte_at(place: usize, draw: u32) -> u8
    ensures { result ≡ byte_at place draw }
{
    let byte = (draw % 256) as u8;
    match place {
        6 => byte % 16,
        7..=9 => 0,
        _ => byte,
    }
}

/// Draws the bytes of a frame, in their order.
pub(crate) fn draw_bytes(draws: &mut Draws, frame: &mut [u8])
    ensures bytes { frame.new ≡ bytes_from draws.old (length frame.old) }
    ensures state { draws.new ≡ state_after draws.old (length frame.old) }
{
    for (place, byte) in frame.iter_mut().enumerate() {
        *byte = byte_at(place, draws.draw());
    }
}
