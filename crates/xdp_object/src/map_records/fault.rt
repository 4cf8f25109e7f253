//! What is wrong with a map.

use btf_view::BtfError;
use thiserror::Error;

/// The rule that a map breaks.
#[derive(Clone, Copy, Debug, PartialEq, Eq, Error)]
pub enum MapRule {
    /// A record of the section `maps` has 20 bytes at least, and stands in its section.
    #[error("its record is no whole one")]
    Record,
    /// The type is that of a hash (`BPF_MAP_TYPE_HASH`, `BPF_MAP_TYPE_PERCPU_HASH`) or of an array
    /// (`BPF_MAP_TYPE_ARRAY`, `BPF_MAP_TYPE_PERCPU_ARRAY`).
    #[error("its type is not that of a hash or an array")]
    Kind,
    /// A key has 1 to 40 bytes, that of an array 4.
    #[error("its keys are of another size")]
    Key,
    /// A value has 1 to 64 bytes.
    #[error("its values are of another size")]
    Value,
    /// There is at least one entry, and in an array there are at most 65,536.
    #[error("it has no entries, or too many")]
    Entries,
    /// There are no flags; a hash may have `BPF_F_NO_PREALLOC`.
    #[error("its flags are not taken")]
    Flags,
    /// What stands in a record after its 20 bytes is zero.
    #[error("its record says more")]
    Tail,
    /// A program has at most 16 maps.
    #[error("it is the seventeenth map")]
    Many,
    /// The name has 1 to 63 letters, digits, `_` and `.`, and is that of no map before it.
    #[error("its name is taken, or is no map's")]
    Name,
    /// In the section `.maps` a map is a variable that the type information tells, and its definition says its type.
    #[error("it is not defined")]
    Absent,
}

/// What is wrong with a map: the first rule that it breaks, or the error of the type information that it needs.
#[derive(Clone, Copy, Debug, PartialEq, Eq, Error)]
pub enum MapFault {
    #[error("{0}")]
    Rule(MapRule),
    #[error("{0}")]
    Btf(BtfError),
}

impl MapRule {
    ghost use Rattle.std.specs.Prelude.{◌≡◌};
    ghost use Rattle.xdp_object.specs.MapRecords.Rules.{number_of};

    /// The number by which the rule is told.
    pub fn number(&self) -> u32
        ensures { result ≡ number_of self.now }
    {
        match self {
            MapRule::Record => 1,
            MapRule::Kind => 2,
            MapRule::Key => 3,
            MapRule::Value => 4,
            MapRule::Entries => 5,
            MapRule::Flags => 6,
            MapRule::Tail => 7,
            MapRule::Many => 8,
            MapRule::Name => 9,
            MapRule::Absent => 10,
        }
    }
}
