//! The tokens of a Verilog text, in the subset of IEEE 1364-2005 that a design is written in: read
//! from the bytes with their places, and written so that they are read back the same.
//!
//! The lexical rules are those of clause 3 of the standard, made narrower. Bytes are ASCII. Spaces,
//! tabs, carriage returns, line feeds and `//` comments separate tokens (3.2, 3.3); a comment ends at
//! a line feed or with the text. A word is letters, digits and `_`, and does not begin with a digit
//! (3.7). A number is decimal digits with no zero in front, at most 65,536; a constant is a size, `'`,
//! `d`, `h` or `b`, and digits, with no space within and with lower-case letters (3.5.1). The longest
//! separator or token that begins at a place is taken, and a run of digits is taken whole.
#![tactic(auto)]

mod element;
mod lex;
mod number;
mod token;
mod write;

pub use crate::element::{LexicalElement, first_element};
pub use crate::lex::tokens;
pub use crate::token::{Keyword, LexError, Symbol, Token, TokenKind};
pub use crate::write::{
    push_keyword, push_line, push_name, push_number, push_sized, push_space, push_symbol,
};
