//! Short texts and byte strings that need no memory of their own.
ghost use Rattle.std.specs.Prelude.{◌≡◌, ◌+◌, ◌≤◌, length, replicate};
ghost use Rattle.xdp_maps.specs.Calls.{patched};

use std::marker::Model;

/// At most 64 bytes, kept in place.
#[derive(Debug, Drop)]
pub struct ShortBytes {
    bytes: [u8; 64],
    len: usize,
}

impl Model for ShortBytes {
    ghost use Rattle.std.specs.Prelude.{List, ℕ, ◌≤◌, take};

    ghost Value = { List ℕ };

    ghost view = { λ s. take s.len s.bytes };

    ghost invariant = { λ s. s.len ≤ 64 };
}

impl ShortBytes {
    pub const MAX_LEN: usize = 64;

    pub fn of(text: &[u8]) -> ShortBytes
        requires { length text.now ≤ 64 }
        ensures { result ≡ text.now }
    {
        let mut bytes = [0; 64];
        bytes[..text.len()].copy_from_slice(text);
        ShortBytes {
            bytes,
            len: text.len(),
        }
    }

    pub fn zeros(len: usize) -> ShortBytes
        requires { len ≤ 64 }
        ensures { result ≡ replicate len 0 }
    {
        ShortBytes {
            bytes: [0; 64],
            len,
        }
    }

    pub fn as_slice(&self) -> &[u8]
        ensures bytes { result.now ≡ self.now }
        ensures short { length self.now ≤ 64 }
    {
        &self.bytes[..self.len]
    }

    pub fn copied(&self) -> ShortBytes
        ensures { result ≡ self.now }
    {
        ShortBytes {
            bytes: self.bytes,
            len: self.len,
        }
    }

    /// Writes bytes over those from a place on.
    pub fn write(&mut self, at: usize, bytes: &[u8])
        requires { at + length bytes.now ≤ length self.old }
        ensures { self.new ≡ patched self.old at bytes.now }
    {
        let value = &mut self.bytes[..self.len];
        value[at..at + bytes.len()].copy_from_slice(bytes);
    }
}
