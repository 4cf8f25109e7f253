//! The entries of an object's tables, as numbers.

/// A section header (gABI 4, "Section Header Table"), without its address, alignment and entry size.
#[derive(Clone, Copy, Debug, PartialEq, Eq)]
pub struct Section {
    /// Where its name begins in the string table of the section names.
    pub name: u32,
    /// Its type: `PROGBITS` 1, `SYMTAB` 2, `STRTAB` 3, `RELA` 4, `NOBITS` 8, `REL` 9.
    pub kind: u32,
    pub flags: u64,
    /// Where its bytes begin in the file.
    pub offset: u64,
    /// How many bytes it has.
    pub size: u64,
    pub link: u32,
    pub info: u32,
}

/// An entry of a symbol table (gABI 4, "Symbol Table").
#[derive(Clone, Copy, Debug, PartialEq, Eq)]
pub struct Symbol {
    /// Where its name begins in the string table that the symbol table links to.
    pub name: u32,
    /// Its binding in the high four bits and its type in the low four.
    pub info: u8,
    /// The number of the section that it is defined in.
    pub section: u16,
    /// In a relocatable file, where it begins in that section.
    pub value: u64,
    pub size: u64,
}

/// An entry of a `REL` section (gABI 4, "Relocation").
#[derive(Clone, Copy, Debug, PartialEq, Eq)]
pub struct Rel {
    /// Where the relocated bytes begin in their section.
    pub offset: u64,
    /// The number of the symbol that it refers to.
    pub symbol: u32,
    /// Its type, which the machine defines.
    pub kind: u32,
}
