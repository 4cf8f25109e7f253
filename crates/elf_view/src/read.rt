//! Reading the numbers and the table entries of a file.

ghost use Rattle.std.specs.Prelude.{◌≡◌, ◌+◌, ◌*◌, ◌<◌, ◌≤◌, None, Some, length, position, ◌==◌, IfOk, IfErr, IfSome};
ghost use Rattle.elf_view.specs.File.{e_shnum, entry_count, string_at, e_shoff, rel_at, section_at, section_header_at, symbol_at};
ghost use Rattle.elf_view.specs.Numbers.{u16_at, u32_at, u64_at};

use crate::error::ElfError;
use crate::parts::{Rel, Section, Symbol};
use byteorder::{ByteOrder, LittleEndian};

/// The number of 2 bytes at a place.
#[tactic(auto, unfolding(crate::specs::Numbers::u16_at))]
pub fn u16_at(bytes: &[u8], at: usize) -> u16
    requires { at + 2 ≤ length bytes.now }
    ensures { result ≡ u16_at bytes.now at }
{
    LittleEndian::read_u16(&bytes[at..])
}

/// The number of 4 bytes at a place.
#[tactic(auto, unfolding(crate::specs::Numbers::u32_at))]
pub fn u32_at(bytes: &[u8], at: usize) -> u32
    requires { at + 4 ≤ length bytes.now }
    ensures { result ≡ u32_at bytes.now at }
{
    LittleEndian::read_u32(&bytes[at..])
}

/// The number of 8 bytes at a place.
#[tactic(auto, unfolding(crate::specs::Numbers::u64_at))]
pub fn u64_at(bytes: &[u8], at: usize) -> u64
    requires { at + 8 ≤ length bytes.now }
    ensures { result ≡ u64_at bytes.now at }
{
    LittleEndian::read_u64(&bytes[at..])
}

/// The section header at a place.
#[tactic(auto, unfolding(crate::specs::File::section_header_at))]
pub fn section_header_at(bytes: &[u8], at: usize) -> Section
    requires { at + 64 ≤ length bytes.now }
    ensures { result ≡ section_header_at bytes.now at }
{
    Section {
        name: u32_at(bytes, at),
        kind: u32_at(bytes, at + 4),
        flags: u64_at(bytes, at + 8),
        offset: u64_at(bytes, at + 24),
        size: u64_at(bytes, at + 32),
        link: u32_at(bytes, at + 40),
        info: u32_at(bytes, at + 44),
    }
}

/// Section header number `i`.
pub fn section_at(bytes: &[u8], i: u16) -> Section
    requires whole { 64 ≤ length bytes.now }
    requires inside { e_shoff bytes.now + 64 * i + 64 ≤ length bytes.now }
    ensures { result ≡ section_at bytes.now i }
{
    section_header_at(bytes, u64_at(bytes, 40) as usize + 64 * i as usize)
}

/// Entry `i` of a symbol table.
#[tactic(auto, unfolding(crate::specs::File::symbol_at))]
pub fn symbol_at(table: &[u8], i: u32) -> Symbol
    requires { 24 * i + 24 ≤ length table.now }
    ensures { result ≡ symbol_at table.now i }
{
    let at = 24 * i as usize;
    Symbol {
        name: u32_at(table, at),
        info: table[at + 4],
        section: u16_at(table, at + 6),
        value: u64_at(table, at + 8),
        size: u64_at(table, at + 16),
    }
}

/// Entry `i` of a `REL` section.
#[tactic(auto, unfolding(crate::specs::File::rel_at))]
pub fn rel_at(table: &[u8], i: u32) -> Rel
    requires { 16 * i + 16 ≤ length table.now }
    ensures { result ≡ rel_at table.now i }
{
    let at = 16 * i as usize;
    let info = u64_at(table, at + 8);
    Rel {
        offset: u64_at(table, at),
        symbol: (info / 0x1_0000_0000) as u32,
        kind: (info % 0x1_0000_0000) as u32,
    }
}

/// The number of whole entries of `size` bytes, as far as 32 bits count them.
pub fn entry_count(table: &[u8], size: usize) -> u32
    requires { 0 < size }
    ensures { result ≡ entry_count size table.now }
{
    (table.len() / size).min(0xffff_ffff) as u32
}

/// The place of the first zero byte.
fn first_zero(bytes: &[u8]) -> Option<usize>
    ensures value { result ≡ position (λ b. b == 0) bytes.now }
    ensures below { IfSome result (λ n. n < length bytes.now) }
{
    bytes.iter().position(|b| *b == 0)
}

/// The string that begins at a place of a string table, without the zero byte that ends it.
#[tactic(auto, unfolding(crate::specs::File::string_at))]
pub fn string_at(table: &[u8], at: u32) -> Result<&[u8], ElfError>
    ensures found { IfOk result (λ name. string_at table.now at ≡ Some name.now) }
    ensures open { IfErr result (λ e. (e ≡ ElfError.At at) × (string_at table.now at ≡ None)) }
{
    let start = (at as usize).min(table.len());
    let (_, tail) = table.split_at(start);
    match first_zero(tail) {
        Some(len) => Ok(&tail[..len]),
        None => Err(ElfError::At { at }),
    }
}
