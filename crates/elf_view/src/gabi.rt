//! Numbers that the gABI names, and those of the sections of a small object.

/// `e_type` of a relocatable file, and `e_machine` of eBPF.
pub const ET_REL: u16 = 1;

pub const EM_BPF: u16 = 247;

/// The section types.
pub const PROGBITS: u32 = 1;

pub const SYMTAB: u32 = 2;

pub const STRTAB: u32 = 3;

pub const NOBITS: u32 = 8;

pub const REL: u32 = 9;

/// The section flags.
pub const WRITE: u64 = 1;

pub const ALLOC: u64 = 2;

pub const EXECINSTR: u64 = 4;

/// The symbols' binding and type in one: a global function, a global object.
pub const GLOBAL_FUNCTION: u8 = 0x12;

pub const GLOBAL_OBJECT: u8 = 0x11;

/// The relocation type `R_BPF_64_64`: the two immediate fields of a 64-bit load.
pub const R_BPF_64_64: u32 = 1;

/// The numbers of the sections of a small object.
pub const CODE_SECTION: u16 = 1;

pub const SYMBOLS_SECTION: u16 = 2;

pub const STRINGS_SECTION: u16 = 3;

pub const RECORDS_SECTION: u16 = 4;
