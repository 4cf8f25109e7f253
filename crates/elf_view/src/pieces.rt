//! The fixed-size pieces of an object, as bytes.

ghost use Rattle.std.specs.Prelude.{◌≡◌, length};
ghost use Rattle.std.specs.List.{flat_map};
ghost use Rattle.elf_view.specs.Numbers.{u16_le, u32_le, u64_le};
ghost use Rattle.elf_view.specs.Pieces.{elf_header, rel_bytes, section_header, symbol_bytes};

use crate::gabi::{EM_BPF, ET_REL, STRINGS_SECTION};
use crate::parts::{Rel, Section, Symbol};
use byteorder::{ByteOrder, LittleEndian};

/// `e_ident`: the magic number, 64-bit class, little-endian data, version 1, and nothing else.
const IDENT: [u8; 16] = [0x7f, 0x45, 0x4c, 0x46, 2, 1, 1, 0, 0, 0, 0, 0, 0, 0, 0, 0];

fn u16_le(n: u16) -> [u8; 2]
    ensures { result ≡ u16_le n }
{
    let mut bytes = [0; 2];
    LittleEndian::write_u16(&mut bytes, n);
    bytes
}

pub fn u32_le(n: u32) -> [u8; 4]
    ensures { result ≡ u32_le n }
{
    let mut bytes = [0; 4];
    LittleEndian::write_u32(&mut bytes, n);
    bytes
}

fn u64_le(n: u64) -> [u8; 8]
    ensures { result ≡ u64_le n }
{
    let mut bytes = [0; 8];
    LittleEndian::write_u64(&mut bytes, n);
    bytes
}

/// Writes the fields, one after the other.
pub fn write_fields(bytes: &mut [u8], fields: &[&[u8]])
    requires { length (flat_map (λ f. f.now) fields.now) ≡ length bytes.old }
    ensures { bytes.new ≡ flat_map (λ f. f.now) fields.now }
{
    let mut at = 0;
    for field in fields {
        bytes[at..at + field.len()].copy_from_slice(field);
        at += field.len();
    }
}

/// The header of a relocatable eBPF file whose section names are in section 3.
#[tactic(auto, unfolding(crate::specs::Pieces::elf_header))]
pub fn elf_header(headers_at: u64, sections: u16) -> [u8; 64]
    ensures { result ≡ elf_header headers_at sections }
{
    let mut bytes = [0; 64];
    let fields: [&[u8]; 12] = [
        &IDENT,
        &u16_le(ET_REL),
        &u16_le(EM_BPF),
        &u32_le(1),
        &[0; 16],
        &u64_le(headers_at),
        &[0; 4],
        &u16_le(64),
        &[0; 4],
        &u16_le(64),
        &u16_le(sections),
        &u16_le(STRINGS_SECTION),
    ];
    write_fields(&mut bytes, &fields);
    bytes
}

/// The header of a section with no address, whose bytes have this alignment and, for a table, this
/// size of an entry.
#[tactic(auto, unfolding(crate::specs::Pieces::section_header))]
pub fn section_header(section: &Section, align: u64, entry: u64) -> [u8; 64]
    ensures { result ≡ section_header section.now align entry }
{
    let mut bytes = [0; 64];
    let fields: [&[u8]; 10] = [
        &u32_le(section.name),
        &u32_le(section.kind),
        &u64_le(section.flags),
        &[0; 8],
        &u64_le(section.offset),
        &u64_le(section.size),
        &u32_le(section.link),
        &u32_le(section.info),
        &u64_le(align),
        &u64_le(entry),
    ];
    write_fields(&mut bytes, &fields);
    bytes
}

/// An entry of a symbol table.
#[tactic(auto, unfolding(crate::specs::Pieces::symbol_bytes))]
pub fn symbol_bytes(symbol: &Symbol) -> [u8; 24]
    ensures { result ≡ symbol_bytes symbol.now }
{
    let mut bytes = [0; 24];
    let fields: [&[u8]; 5] = [
        &u32_le(symbol.name),
        &[symbol.info, 0],
        &u16_le(symbol.section),
        &u64_le(symbol.value),
        &u64_le(symbol.size),
    ];
    write_fields(&mut bytes, &fields);
    bytes
}

/// An entry of a `REL` section.
#[tactic(auto, unfolding(crate::specs::Pieces::rel_bytes))]
pub fn rel_bytes(rel: &Rel) -> [u8; 16]
    ensures { result ≡ rel_bytes rel.now }
{
    let mut bytes = [0; 16];
    let info = u64::from(rel.symbol) * 0x1_0000_0000 + u64::from(rel.kind);
    write_fields(&mut bytes, &[&u64_le(rel.offset), &u64_le(info)]);
    bytes
}
