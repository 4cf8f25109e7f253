//! What a map definition says.

/// The fields of a map definition. A number that it does not say is 0.
#[derive(Clone, Copy, Debug, PartialEq, Eq)]
pub struct MapFields {
    /// The type of the map, as `bpf_map_type` of `linux/bpf.h` numbers them.
    pub kind: Option<u32>,
    /// The size of a key in bytes.
    pub key: u32,
    /// The size of a value in bytes.
    pub value: u32,
    /// The greatest number of entries.
    pub cap: u32,
    /// Its flags, as `linux/bpf.h` has them.
    pub flags: u32,
}
