//! What the helpers answer where they refuse, as bpf(2) names it.

/// The key is not there.
pub const ENOENT: i64 = -2;
/// The map is full, or an array has no such index.
pub const E2BIG: i64 = -7;
/// The key is there already.
pub const EEXIST: i64 = -17;
/// The flags have no meaning, or an array's entry was to be deleted.
pub const EINVAL: i64 = -22;
