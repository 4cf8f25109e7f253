//! Types by what the definition of a map asks of them.

/// A type, by its role in the definition of a map.
#[derive(Clone, Copy)]
pub enum Shape {
    /// A variable of type `id`.
    Variable { id: u32 },
    /// A structure of `count` members, from a place of the type part on.
    Structure { place: usize, count: u32, size: u32 },
    /// A pointer to type `id`.
    Pointer { id: u32 },
    /// An array of `count` elements of type `id`.
    ArrayOf { id: u32, count: u32 },
    /// A name or a qualifier of type `id`, which has that type's size.
    Modifier { id: u32 },
    /// Another type with a size.
    Sized { size: u32 },
    /// A type without one.
    Unsized,
}
