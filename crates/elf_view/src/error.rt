//! The errors of opening an object and of reading a name.

use thiserror::Error;

/// Why bytes are no object that is read here.
#[derive(Clone, Copy, Debug, PartialEq, Eq, Error)]
pub enum ElfError {
    /// The file has fewer than `need` bytes: those of the file header, or of the section headers.
    #[error("the file is shorter than {need} bytes")]
    Short { need: u128 },
    /// It is no relocatable ELF file of 64-bit class in little-endian order, or its section headers
    /// are not of 64 bytes.
    #[error("not a relocatable little-endian ELF64 file")]
    Header,
    /// Its machine is `n`, and not eBPF, 247.
    #[error("the machine is {n}, and not eBPF")]
    Machine { n: u16 },
    /// The rules of section `n` are broken: its bytes are not in the file, or it is no string table
    /// where one is needed, or it is a symbol table with a broken size or link.
    #[error("section {n} is broken")]
    Section { n: u32 },
    /// The name at `at` does not end inside its string table.
    #[error("the name at {at} does not end in its table")]
    At { at: u32 },
}
