//! The names of the members of a map definition.

ghost use Rattle.std.specs.Prelude.{◌≡◌};
ghost use Rattle.btf_view.specs.Members.{counterpart, text_of};

/// A member of a map definition, by its name.
#[derive(Clone, Copy)]
pub enum MemberName {
    MapType,
    KeySize,
    ValueSize,
    MaxEntries,
    MapFlags,
    Pinning,
    Key,
    Value,
}

impl MemberName {
    pub const ALL: [MemberName; 8] = [
        MemberName::MapType,
        MemberName::KeySize,
        MemberName::ValueSize,
        MemberName::MaxEntries,
        MemberName::MapFlags,
        MemberName::Pinning,
        MemberName::Key,
        MemberName::Value,
    ];

    /// The name as it is written.
    pub fn text(self) -> &'static [u8]
        ensures { result.now ≡ text_of self }
    {
        match self {
            MemberName::MapType => b"type",
            MemberName::KeySize => b"key_size",
            MemberName::ValueSize => b"value_size",
            MemberName::MaxEntries => b"max_entries",
            MemberName::MapFlags => b"map_flags",
            MemberName::Pinning => b"pinning",
            MemberName::Key => b"key",
            MemberName::Value => b"value",
        }
    }

    /// The name of the member that says the same number by other means.
    pub fn counterpart(self) -> Option<MemberName>
        ensures { result ≡ counterpart self }
    {
        match self {
            MemberName::Key => Some(MemberName::KeySize),
            MemberName::KeySize => Some(MemberName::Key),
            MemberName::Value => Some(MemberName::ValueSize),
            MemberName::ValueSize => Some(MemberName::Value),
            _ => None,
        }
    }
}
