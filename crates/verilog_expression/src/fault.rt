//! The first fault of a text's tokens.

/// What is at fault.
#[derive(Clone, Copy, PartialEq, Eq, Debug)]
pub enum Code {
    /// A token that the grammar does not have there.
    Syntax,
    /// A name without an earlier declaration of the sort that is needed.
    Unknown,
    /// A second declaration, a second assign, or a second always block for a target.
    Twice,
    /// A width, a range or a bound.
    Width,
    /// An item after one of a later section.
    Order,
}

/// A fault, and where: how many tokens are left from its token on, none at the end of the text.
#[derive(Clone, Copy, PartialEq, Eq, Debug)]
pub struct Fault {
    pub code: Code,
    pub left: usize,
}
