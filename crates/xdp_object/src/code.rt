//! What is written of a fault.

ghost use Rattle.std.specs.Prelude.{◌≡◌, ◌++◌, IfOk, OnOk, decimal};
ghost use Rattle.xdp_object.specs.Codes.{code_of};

use crate::error::ObjectError;
use btf_view::BtfError;
use elf_view::ElfError;
use itoa::Buffer;
use std::alloc::{AllocError, Global};

impl ObjectError {
    /// Its code and its numbers in decimal, with one space between them, as in `O1 E3 62`, `O3 2`, `O7 odd` or `O8`.
    /// Want of memory has no code.
    pub fn code(&self, alloc: Global) -> Result<Vec<u8>, AllocError>
        ensures { IfOk result (λ text. text.items ≡ code_of self.now) }
    {
        match *self {
            ObjectError::Long => Vec::from_slice(alloc, b"O8"),
            ObjectError::Elf(error) => elf_code(alloc, error),
            ObjectError::NoProgram => Vec::from_slice(alloc, b"O2"),
            ObjectError::ManyPrograms { count } => numbered(alloc, b"O3 ", u128::from(count)),
            ObjectError::Odd => Vec::from_slice(alloc, b"O7 odd"),
            ObjectError::Bad { at } => numbered(alloc, b"O7 ", u128::from(at)),
            ObjectError::Relocation { at } => numbered(alloc, b"O4 ", u128::from(at)),
            ObjectError::Map { symbol, rule } => {
                let mut text = numbered(alloc, b"O5 ", u128::from(symbol))?;
                text.push(b' ')?;
                push_number(&mut text, u128::from(rule.number()))?;
                Ok(text)
            }
            ObjectError::Btf(error) => btf_code(alloc, error),
            ObjectError::NoMemory => Ok(Vec::new(alloc)),
        }
    }
}

// The code of a fault of an ELF file.
fn elf_code(alloc: Global, error: ElfError) -> Result<Vec<u8>, AllocError>
    ensures { IfOk result (λ text. text.items ≡ code_of (ObjectError.Elf error)) }
{
    match error {
        ElfError::Short { need } => numbered(alloc, b"O1 E1 ", need),
        ElfError::Header => Vec::from_slice(alloc, b"O1 E2"),
        ElfError::Machine { n } => numbered(alloc, b"O1 E3 ", u128::from(n)),
        ElfError::Section { n } => numbered(alloc, b"O1 E4 ", u128::from(n)),
        ElfError::At { at } => numbered(alloc, b"O1 E5 ", u128::from(at)),
    }
}

// The code of an error of type information.
fn btf_code(alloc: Global, error: BtfError) -> Result<Vec<u8>, AllocError>
    ensures { IfOk result (λ text. text.items ≡ code_of (ObjectError.Btf error)) }
{
    match error {
        BtfError::Short => Vec::from_slice(alloc, b"O6 B1"),
        BtfError::Magic => Vec::from_slice(alloc, b"O6 B2"),
        BtfError::Kind { id } => numbered(alloc, b"O6 B3 ", u128::from(id)),
        BtfError::Depth => Vec::from_slice(alloc, b"O6 B4"),
        BtfError::Field { member } => numbered(alloc, b"O6 B5 ", u128::from(member)),
    }
}

// Puts a number in decimal.
fn push_number(text: &mut Vec<u8>, number: u128) -> Result<(), AllocError>
    ensures { OnOk result (text.new.items ≡ text.old.items ++ decimal number) }
{
    let mut buffer = Buffer::new();
    text.extend_from_slice(buffer.format(number).as_bytes())
}

// A word and a number in decimal.
fn numbered(alloc: Global, word: &[u8], number: u128) -> Result<Vec<u8>, AllocError>
    ensures { IfOk result (λ text. text.items ≡ word.now ++ decimal number) }
{
    let mut text = Vec::from_slice(alloc, word)?;
    push_number(&mut text, number)?;
    Ok(text)
}
