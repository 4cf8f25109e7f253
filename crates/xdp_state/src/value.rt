// What a register or a slot of the stack holds.

ghost use Rattle.std.specs.Prelude.{◌≤◌};

/// The key of an entry, kept in place.
#[derive(Clone, Copy)]
pub struct Key {
    bytes: [u8; 40],
    len: usize,
    ghost short: { len ≤ 40 },
}

impl Key {
    ghost use Rattle.std.specs.Prelude.{◌≡◌, length};
    ghost use Rattle.xdp_state.specs.Views.{key_of};

    pub const MAX_LEN: usize = 40;

    /// The key of these bytes.
    pub fn of(bytes: &[u8]) -> Key
        requires { length bytes.now ≤ 40 }
        ensures { key_of result ≡ bytes.now }
    {
        let mut kept = [0; 40];
        kept[..bytes.len()].copy_from_slice(bytes);
        Key {
            bytes: kept,
            len: bytes.len(),
        }
    }

    /// Its bytes.
    pub fn bytes(&self) -> &[u8]
        ensures { result.now ≡ key_of self.now }
    {
        &self.bytes[..self.len]
    }
}

/// A value, as `Value` of `xdp_machine` has it.
#[derive(Clone, Copy)]
pub enum Value {
    Unset,
    Number(u64),
    Packet(i64),
    Stack(i64),
    Context,
    Map(u32),
    Entry(u32, i64, Key),
}
