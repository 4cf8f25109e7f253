//! The string part: its names.

ghost use Rattle.std.specs.Prelude.{◌≡◌, ◌<◌, ◌==◌, is_some, drop, length, position, take, IfSome};
ghost use Rattle.btf_view.specs.Names.{is_named, name_at};

use std::marker::Model;

/// The string part, and where its names end. Contracts see it as its bytes.
#[derive(Drop)]
pub struct Strings<'a> {
    bytes: &'a [u8],
    end: usize,
}

impl<'a> Model for Strings<'a> {
    ghost use Rattle.std.specs.Prelude.{ℕ, List};
    ghost use Rattle.btf_view.specs.Names.{HasNamesBelow};

    ghost Value = { List ℕ };

    ghost view = { λ s. s.bytes.now };

    ghost invariant = { λ s. HasNamesBelow s.bytes.now s.end };
}

/// The place of the first zero byte.
fn first_zero(bytes: &[u8]) -> Option<usize>
    ensures place { result ≡ position (λ b. b == 0) bytes.now }
    ensures below { IfSome result (λ n. n < length bytes.now) }
{
    bytes.iter().position(|b| *b == 0)
}

impl<'a> Strings<'a> {
    /// The names of a string part. Those that begin in front of its last zero byte end in it, so that no name has to
    /// be read to its end to know that.
    pub fn new(bytes: &'a [u8]) -> Strings<'a>
        ensures { result ≡ bytes.now }
    {
        let mut end = bytes.len();
        while end > 0 && bytes[end - 1] != 0 {
            end -= 1;
        }
        Strings { bytes, end }
    }

    /// Whether the name at a place ends in the string part.
    pub fn has_name(&self, at: u32) -> bool
        ensures { result ≡ is_some (name_at self.now at) }
    {
        (at as usize) < self.end
    }

    /// The bytes from a place on, at most `len` of them.
    fn window(&self, at: u32, len: usize) -> &'a [u8]
        ensures { result.now ≡ take len (drop at self.now) }
    {
        let (_, tail) = self.bytes.split_at((at as usize).min(self.bytes.len()));
        tail.split_at(len.min(tail.len())).0
    }

    /// Whether the name at a place is this one. It is read no further than this one is long.
    pub fn is_named(&self, at: u32, name: &[u8]) -> bool
        ensures { result ≡ is_named self.now at name.now }
    {
        let head = self.window(at, name.len() + 1);
        match first_zero(head) {
            Some(len) => &head[..len] == name,
            None => false,
        }
    }
}
