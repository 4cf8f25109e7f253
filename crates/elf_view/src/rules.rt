//! The rules of a file, each tested by a function of its own.

ghost use Rattle.std.specs.Prelude.{◌≡◌, ◌≢◌, ◌+◌, ◌*◌, ◌^◌, ◌<◌, ◌≤◌, ℕ, length, nat_lt, is_some, not, ◌==◌, ◌&&◌, IfSome, OnOk};
ghost use Rattle.elf_view.specs.File.{e_shnum, e_shoff, e_shstrndx, first_symtab, section_at, span_of, string_at};
ghost use Rattle.elf_view.specs.Rules.{AllInside, FailsAs, IsInside, is_string_table, name_open, no_names, sections_outside, short_file, short_headers, wrong_header, wrong_machine, wrong_table};
ghost use Rattle.list_laws.specs.Firsts.{first_from};

use crate::error::ElfError;
use crate::gabi::{EM_BPF, ET_REL, NOBITS, STRTAB, SYMTAB};
use crate::parts::Section;
use crate::read::{section_at, u16_at, u64_at};

/// The number of sections.
pub fn e_shnum(bytes: &[u8]) -> u16
    requires { 64 ≤ length bytes.now }
    ensures { result ≡ e_shnum bytes.now }
{
    u16_at(bytes, 60)
}

/// The file header is whole.
#[tactic(auto, unfolding(crate::specs::Rules::short_file))]
pub fn check_length(bytes: &[u8]) -> Result<(), ElfError>
    ensures error { FailsAs result (short_file bytes.now) }
    ensures whole { OnOk result (64 ≤ length bytes.now) }
{
    if bytes.len() < 64 {
        return Err(ElfError::Short { need: 64 });
    }
    Ok(())
}

/// The file is a relocatable ELF64 file in little-endian order.
#[tactic(auto, unfolding(crate::specs::Rules::wrong_header))]
pub fn check_header(bytes: &[u8]) -> Result<(), ElfError>
    requires { 64 ≤ length bytes.now }
    ensures { FailsAs result (wrong_header bytes.now) }
{
    let ident = bytes[..6] == [0x7f, 0x45, 0x4c, 0x46, 2, 1];
    if ident && u16_at(bytes, 16) == ET_REL && u16_at(bytes, 58) == 64 {
        return Ok(());
    }
    Err(ElfError::Header)
}

/// The machine is eBPF.
#[tactic(auto, unfolding(crate::specs::Rules::wrong_machine))]
pub fn check_machine(bytes: &[u8]) -> Result<(), ElfError>
    requires { 64 ≤ length bytes.now }
    ensures { FailsAs result (wrong_machine bytes.now) }
{
    let machine = u16_at(bytes, 18);
    if machine == EM_BPF {
        return Ok(());
    }
    Err(ElfError::Machine { n: machine })
}

/// The section headers are whole.
#[tactic(auto, unfolding(crate::specs::Rules::short_headers))]
pub fn check_headers(bytes: &[u8]) -> Result<(), ElfError>
    requires { 64 ≤ length bytes.now }
    ensures error { FailsAs result (short_headers bytes.now) }
    ensures whole { OnOk result (e_shoff bytes.now + 64 * e_shnum bytes.now ≤ length bytes.now) }
    ensures few { OnOk result (e_shnum bytes.now < 2 ^ 16) }
{
    let need = u128::from(u64_at(bytes, 40)) + 64 * u128::from(e_shnum(bytes));
    if (bytes.len() as u128) < need {
        return Err(ElfError::Short { need });
    }
    Ok(())
}

/// Whether the bytes of a section stand in the file, if it has any.
fn is_inside(bytes: &[u8], section: &Section) -> bool
    ensures { result ≡ not (not (section.now.kind == 8) && nat_lt (length bytes.now) (section.now.offset + section.now.size)) }
{
    section.kind == NOBITS
        || u128::from(section.offset) + u128::from(section.size) <= bytes.len() as u128
}

/// The bytes of each section stand in the file.
#[tactic(auto, unfolding(crate::specs::Rules::sections_outside))]
pub fn check_spans(bytes: &[u8]) -> Result<(), ElfError>
    requires header { 64 ≤ length bytes.now }
    requires headers { e_shoff bytes.now + 64 * e_shnum bytes.now ≤ length bytes.now }
    ensures error { FailsAs result (sections_outside bytes.now) }
    ensures inside { OnOk result (AllInside bytes.now) }
{
    for i in 0..e_shnum(bytes) {
        if !is_inside(bytes, &section_at(bytes, i)) {
            return Err(ElfError::Section { n: u32::from(i) });
        }
    }
    Ok(())
}

/// The bytes of a section, none for a `NOBITS` section.
pub fn span_of<'a>(bytes: &'a [u8], section: &Section) -> &'a [u8]
    requires { IsInside bytes.now section.now }
    ensures { result.now ≡ span_of bytes.now section.now }
{
    if section.kind == NOBITS {
        return &[];
    }
    &bytes[section.offset as usize..section.offset as usize + section.size as usize]
}

/// Whether a section number is that of a string table.
pub fn is_string_table(bytes: &[u8], i: u32) -> bool
    requires header { 64 ≤ length bytes.now }
    requires headers { e_shoff bytes.now + 64 * e_shnum bytes.now ≤ length bytes.now }
    ensures { result ≡ is_string_table bytes.now i }
{
    i < u32::from(e_shnum(bytes)) && section_at(bytes, i as u16).kind == STRTAB
}

/// There is a string table of the section names.
#[tactic(auto, unfolding(crate::specs::Rules::no_names))]
pub fn check_name_table(bytes: &[u8]) -> Result<(), ElfError>
    requires header { 64 ≤ length bytes.now }
    requires headers { e_shoff bytes.now + 64 * e_shnum bytes.now ≤ length bytes.now }
    ensures error { FailsAs result (no_names bytes.now) }
    ensures below { OnOk result (e_shstrndx bytes.now < e_shnum bytes.now) }
{
    let names = u32::from(u16_at(bytes, 62));
    if is_string_table(bytes, names) {
        return Ok(());
    }
    Err(ElfError::Section { n: names })
}

/// One more than the place of the last zero byte, 0 without one: exactly the strings that begin below
/// it end in the table.
fn strings_end(table: &[u8]) -> usize
    ensures { (at : ℕ) → is_some (string_at table.now at) ≡ nat_lt at result }
{
    let mut end = table.len();
    while end > 0 && table[end - 1] != 0 {
        end -= 1;
    }
    end
}

/// The name of each section ends in the table of names.
pub fn check_names(bytes: &[u8], table: &[u8]) -> Result<(), ElfError>
    requires header { 64 ≤ length bytes.now }
    requires headers { e_shoff bytes.now + 64 * e_shnum bytes.now ≤ length bytes.now }
    ensures { FailsAs result (first_from (name_open bytes.now table.now) 0 (e_shnum bytes.now)) }
{
    let end = strings_end(table);
    for i in 0..e_shnum(bytes) {
        let at = section_at(bytes, i).name;
        if at as usize >= end {
            return Err(ElfError::At { at });
        }
    }
    Ok(())
}

/// The number of the first symbol table.
#[tactic(auto, unfolding(crate::specs::File::first_symtab))]
pub fn first_symtab(bytes: &[u8]) -> Option<u16>
    requires header { 64 ≤ length bytes.now }
    requires headers { e_shoff bytes.now + 64 * e_shnum bytes.now ≤ length bytes.now }
    ensures value { result ≡ first_symtab bytes.now }
    ensures below { IfSome result (λ i. i < e_shnum bytes.now) }
{
    for i in 0..e_shnum(bytes) {
        if section_at(bytes, i).kind == SYMTAB {
            return Some(i);
        }
    }
    None
}

/// The symbol table, if there is one, has whole entries and a string table.
pub fn check_symbols(bytes: &[u8], symtab: Option<u16>) -> Result<(), ElfError>
    requires header { 64 ≤ length bytes.now }
    requires headers { e_shoff bytes.now + 64 * e_shnum bytes.now ≤ length bytes.now }
    requires below { IfSome symtab (λ i. i < e_shnum bytes.now) }
    ensures { FailsAs result (wrong_table bytes.now symtab) }
{
    let Some(i) = symtab else {
        return Ok(());
    };
    let section = section_at(bytes, i);
    if section.size % 24 == 0 && is_string_table(bytes, section.link) {
        return Ok(());
    }
    Err(ElfError::Section { n: u32::from(i) })
}
