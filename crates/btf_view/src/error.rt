//! The errors of opening a view, of reading a name and of reading a map definition.

use thiserror::Error;

/// Why bytes are no BTF that is read here, or a variable defines no map.
#[derive(Clone, Copy, Debug, PartialEq, Eq, Error)]
pub enum BtfError {
    /// The header, a part or a type is not whole, or a name does not end in the string part.
    #[error("the type information is cut off")]
    Short,
    /// The magic number is not that of little-endian BTF, or the version is not 1.
    #[error("not little-endian BTF of version 1")]
    Magic,
    /// The kind of type `id` is none from 1 to 19.
    #[error("type {id} is of no known kind")]
    Kind { id: u32 },
    /// A type leads through more than 32 modifiers and arrays.
    #[error("a type leads through more than 32 others")]
    Depth,
    /// The member of this number, from 1 on, is at fault: its name is no member's of a map definition, or stood
    /// before; its type says no number; or another number than its counterpart (`key` and `key_size`, `value` and
    /// `value_size`). Number 0: what is asked for is no variable of a structure type.
    #[error("member {member} is no part of a map definition")]
    Field { member: u32 },
}
