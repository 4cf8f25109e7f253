//! Adds tokens to a text, so that they are read back as they were written.
//!
//! A text is *closed* while whatever is added to it is read apart from what is there, and *open* after
//! a word or a number, which a letter, a digit, `_` or `'` would go on with. A space, the end of a
//! line or a symbol closes it.

ghost use Rattle.std.specs.Prelude.{◌≡◌, ◌≤◌, ◌∷◌, ◌++◌, [], List, IsTrue, OnErr, OnOk, codes, take, vec_len};
ghost use Rattle.std.specs.Fmt.{decimal};
ghost use Rattle.verilog_lex.specs.Lexeme.{LKeyword, LName, LNumber, LSized, LSymbol, Lexeme};
ghost use Rattle.verilog_lex.specs.Number.{fits_size};
ghost use Rattle.verilog_lex.specs.Spelling.{IsClosed, IsName, IsOpen, sized_text, symbol_spelling};
ghost use Rattle.verilog_lex.specs.Words.{keyword_text};

use crate::token::{Keyword, Symbol};
use itoa::Buffer;
use std::alloc::AllocError;

/// Adds a name to a closed text. An error leaves the text as it was, here and below.
pub fn push_name(text: &mut Vec<u8>, name: &[u8]) -> Result<(), AllocError>
    requires { IsName name.now }
    ensures bytes { OnOk result (text.new.items ≡ text.old.items ++ name.now) }
    ensures read { OnOk result ((ls : List Lexeme) → IsClosed text.old.items ls → IsOpen text.new.items (ls ++ LName name.now ∷ [])) }
    ensures err { OnErr result (text.new.items ≡ text.old.items) }
{
    text.extend_from_slice(name)
}

/// Adds a keyword to a closed text.
pub fn push_keyword(text: &mut Vec<u8>, keyword: Keyword) -> Result<(), AllocError>
    ensures bytes { OnOk result (text.new.items ≡ text.old.items ++ keyword_text keyword) }
    ensures read { OnOk result ((ls : List Lexeme) → IsClosed text.old.items ls → IsOpen text.new.items (ls ++ LKeyword keyword ∷ [])) }
    ensures err { OnErr result (text.new.items ≡ text.old.items) }
{
    text.extend_from_slice(keyword.text())
}

/// Adds a number without a size to a closed text.
pub fn push_number(text: &mut Vec<u8>, number: u32) -> Result<(), AllocError>
    requires { number ≤ 65536 }
    ensures bytes { OnOk result (text.new.items ≡ text.old.items ++ decimal number) }
    ensures read { OnOk result ((ls : List Lexeme) → IsClosed text.old.items ls → IsOpen text.new.items (ls ++ LNumber number ∷ [])) }
    ensures err { OnErr result (text.new.items ≡ text.old.items) }
{
    let mut buffer = Buffer::new();
    text.extend_from_slice(buffer.format(number).as_bytes())
}

/// Adds a constant of a width in bits to a closed text, in decimal.
pub fn push_sized(text: &mut Vec<u8>, width: u8, value: u64) -> Result<(), AllocError>
    requires { IsTrue (fits_size width value) }
    ensures bytes { OnOk result (text.new.items ≡ text.old.items ++ sized_text width value) }
    ensures read { OnOk result ((ls : List Lexeme) → IsClosed text.old.items ls → IsOpen text.new.items (ls ++ LSized width value ∷ [])) }
    ensures err { OnErr result (text.new.items ≡ text.old.items) }
{
    let mut size = Buffer::new();
    let mut digits = Buffer::new();
    push_parts(
        text,
        size.format(width).as_bytes(),
        b"'d",
        digits.format(value).as_bytes(),
    )
}

/// Adds a symbol to a text, open or closed, and a space after `=`, `<`, `>` and `/`, which could be
/// a prefix of another token.
pub fn push_symbol(text: &mut Vec<u8>, symbol: Symbol) -> Result<(), AllocError>
    ensures bytes { OnOk result (text.new.items ≡ text.old.items ++ symbol_spelling symbol) }
    ensures read { OnOk result ((ls : List Lexeme) → IsOpen text.old.items ls → IsClosed text.new.items (ls ++ LSymbol symbol ∷ [])) }
    ensures err { OnErr result (text.new.items ≡ text.old.items) }
{
    text.extend_from_slice(symbol.spelling())
}

/// Adds a space, which closes the text.
pub fn push_space(text: &mut Vec<u8>) -> Result<(), AllocError>
    ensures bytes { OnOk result (text.new.items ≡ text.old.items ++ codes " ") }
    ensures read { OnOk result ((ls : List Lexeme) → IsOpen text.old.items ls → IsClosed text.new.items ls) }
    ensures err { OnErr result (text.new.items ≡ text.old.items) }
{
    text.extend_from_slice(b" ")
}

/// Ends a line, which closes the text.
pub fn push_line(text: &mut Vec<u8>) -> Result<(), AllocError>
    ensures bytes { OnOk result (text.new.items ≡ text.old.items ++ codes "\n") }
    ensures read { OnOk result ((ls : List Lexeme) → IsOpen text.old.items ls → IsClosed text.new.items ls) }
    ensures err { OnErr result (text.new.items ≡ text.old.items) }
{
    text.extend_from_slice(b"\n")
}

// Adds three parts, or nothing.
fn push_parts(
    text: &mut Vec<u8>,
    first: &[u8],
    second: &[u8],
    third: &[u8],
) -> Result<(), AllocError>
    ensures bytes { OnOk result (text.new.items ≡ text.old.items ++ (first.now ++ (second.now ++ third.now))) }
    ensures err { OnErr result (text.new.items ≡ text.old.items) }
{
    let len = text.len();
    let result = extend(text, first, second, third);
    if result.is_err() {
        text.truncate(len);
    }
    result
}

// Adds three parts, or some of them.
fn extend(text: &mut Vec<u8>, first: &[u8], second: &[u8], third: &[u8]) -> Result<(), AllocError>
    ensures bytes { OnOk result (text.new.items ≡ text.old.items ++ (first.now ++ (second.now ++ third.now))) }
    ensures prefix { take (vec_len text.old) text.new.items ≡ text.old.items }
{
    text.extend_from_slice(first)?;
    text.extend_from_slice(second)?;
    text.extend_from_slice(third)
}
