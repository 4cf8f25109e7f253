//! The sections of a design.

/// A section of a design: its items stand after those of earlier sections.
#[derive(Clone, Copy, PartialEq, Eq, Debug)]
pub enum Section {
    /// Integers, registers and memories.
    Declared,
    Wires,
    Assigns,
    Always,
}
