//! The section headers of a small object.

ghost use Rattle.std.specs.Prelude.{◌≡◌, ◌+◌, ◌^◌, ◌<◌, ◌++◌, OnOk};
ghost use Rattle.elf_view.specs.Layout.{base_headers, code_section, headers_at, map_headers, section_count, strings_section, symbols_section};

use crate::gabi::{
    ALLOC, CODE_SECTION, EXECINSTR, PROGBITS, REL, STRINGS_SECTION, STRTAB, SYMBOLS_SECTION,
    SYMTAB, WRITE,
};
use crate::object::MapRecord;
use crate::parts::Section;
use crate::pieces::section_header;
use crate::sizes::Sizes;
use std::alloc::AllocError;

/// The number of the first global symbol: symbol 0 alone is local.
const FIRST_GLOBAL: u32 = 1;

/// Section 0 is none.
pub const NO_SECTION: Section = Section {
    name: 0,
    kind: 0,
    flags: 0,
    offset: 0,
    size: 0,
    link: 0,
    info: 0,
};

/// How many sections the object has.
pub fn section_count(maps: &[MapRecord<'_>]) -> u16
    ensures { result ≡ section_count maps.now }
{
    if maps.is_empty() { 4 } else { 6 }
}

/// The header of the code.
pub fn code_section(sizes: &Sizes) -> Section
    ensures { result ≡ code_section sizes.now }
{
    Section {
        name: 1,
        kind: PROGBITS,
        flags: ALLOC | EXECINSTR,
        offset: 64,
        size: sizes.code,
        link: 0,
        info: 0,
    }
}

/// The header of the symbol table.
pub fn symbols_section(sizes: &Sizes) -> Section
    requires { headers_at sizes.now < 2 ^ 64 }
    ensures { result ≡ symbols_section sizes.now }
{
    Section {
        name: 5,
        kind: SYMTAB,
        flags: 0,
        offset: sizes.symbols_at(),
        size: sizes.symbols,
        link: STRINGS_SECTION as u32,
        info: FIRST_GLOBAL,
    }
}

/// The header of the string table.
pub fn strings_section(sizes: &Sizes) -> Section
    requires { headers_at sizes.now < 2 ^ 64 }
    ensures { result ≡ strings_section sizes.now }
{
    Section {
        name: 13,
        kind: STRTAB,
        flags: 0,
        offset: sizes.strings_at(),
        size: sizes.strings,
        link: 0,
        info: 0,
    }
}

/// Puts the section headers that every object has.
pub fn put_base_headers(out: &mut Vec<u8>, sizes: &Sizes) -> Result<(), AllocError>
    requires { headers_at sizes.now < 2 ^ 64 }
    ensures { OnOk result (out.new.items ≡ out.old.items ++ base_headers sizes.now) }
{
    out.extend_from_slice(&section_header(&NO_SECTION, 0, 0))?;
    out.extend_from_slice(&section_header(&code_section(sizes), 8, 0))?;
    out.extend_from_slice(&section_header(&symbols_section(sizes), 8, 24))?;
    out.extend_from_slice(&section_header(&strings_section(sizes), 1, 0))
}

/// Puts the section headers that only an object with maps has.
pub fn put_map_headers(
    out: &mut Vec<u8>,
    name_len: u32,
    sizes: &Sizes,
    maps: &[MapRecord<'_>],
) -> Result<(), AllocError>
    requires name { 27 + name_len < 2 ^ 32 }
    requires sizes { headers_at sizes.now < 2 ^ 64 }
    ensures { OnOk result (out.new.items ≡ out.old.items ++ map_headers name_len sizes.now maps.now) }
{
    if maps.is_empty() {
        return Ok(());
    }
    let records = Section {
        name: 22 + name_len,
        kind: PROGBITS,
        flags: WRITE | ALLOC,
        offset: sizes.records_at(),
        size: sizes.records,
        link: 0,
        info: 0,
    };
    let rels = Section {
        name: 27 + name_len,
        kind: REL,
        flags: 0,
        offset: sizes.rels_at(),
        size: sizes.rels,
        link: SYMBOLS_SECTION as u32,
        info: CODE_SECTION as u32,
    };
    out.extend_from_slice(&section_header(&records, 4, 0))?;
    out.extend_from_slice(&section_header(&rels, 8, 16))
}
