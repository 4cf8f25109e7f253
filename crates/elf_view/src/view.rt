//! The view of a whole file.

ghost use Rattle.std.specs.Prelude.{◌+◌, ◌*◌, ◌<◌, ◌≤◌, None, Some, List, ℕ, length, ◌≡◌, IfOk, IfErr};
ghost use Rattle.elf_view.specs.File.{e_shnum, entry_count, first_symtab, rel_at, section_at, section_bytes, string_at, symbol_at, symbol_table};
ghost use Rattle.elf_view.specs.Opened.{IsOpened};
ghost use Rattle.elf_view.specs.Rules.{FailsAs, first_error};

use crate::error::ElfError;
use crate::parts::{Rel, Section, Symbol};
use crate::read::{entry_count, rel_at, section_at, string_at, symbol_at, u16_at};
use crate::rules::{
    check_header, check_headers, check_length, check_machine, check_name_table, check_names,
    check_spans, check_symbols, e_shnum, first_symtab, span_of,
};
use std::marker::Model;

/// An ELF64 object, by the bytes of its file: each part is read where it stands, and borrowed from
/// them. Contracts see it as the file's bytes.
#[derive(Drop)]
pub struct ElfView<'a> {
    bytes: &'a [u8],
    symtab: Option<u16>,
}

impl<'a> Model for ElfView<'a> {
    ghost Value = { List ℕ };

    ghost view = { λ v. v.bytes.now };

    ghost invariant = { λ v. IsOpened v.bytes.now v.symtab };
}

impl<'a> ElfView<'a> {
    /// Opens a file: it fails with the first error of the file, in the order of the rules.
    #[tactic(auto, unfolding(crate::specs::Rules::first_error, crate::specs::Rules::names_open, crate::specs::Rules::wrong_symbols))]
    pub fn open(bytes: &'a [u8]) -> Result<ElfView<'a>, ElfError>
        ensures error { FailsAs result (first_error bytes.now) }
        ensures whole { IfOk result (λ view. view ≡ bytes.now) }
    {
        check_length(bytes)?;
        check_header(bytes)?;
        check_machine(bytes)?;
        check_headers(bytes)?;
        check_spans(bytes)?;
        check_name_table(bytes)?;
        check_names(bytes, span_of(bytes, &section_at(bytes, u16_at(bytes, 62))))?;
        let symtab = first_symtab(bytes);
        check_symbols(bytes, symtab)?;
        Ok(ElfView { bytes, symtab })
    }

    /// The number of sections.
    pub fn sections(&self) -> u32
        ensures { result ≡ e_shnum self.now }
    {
        u32::from(e_shnum(self.bytes))
    }

    /// Section header number `i`.
    pub fn section(&self, i: u32) -> Section
        requires { i < e_shnum self.now }
        ensures { result ≡ section_at self.now i }
    {
        section_at(self.bytes, i as u16)
    }

    /// The bytes of section `sec`: none for a `NOBITS` section.
    pub fn bytes_of(&self, sec: u32) -> &'a [u8]
        requires { sec < e_shnum self.now }
        ensures { result.now ≡ section_bytes self.now sec }
    {
        span_of(self.bytes, &section_at(self.bytes, sec as u16))
    }

    /// The string that begins at `at` in section `table`, without the zero byte that ends it. It fails
    /// with `At` exactly where no zero byte stands in that section from `at` on.
    pub fn name_of(&self, table: u32, at: u32) -> Result<&'a [u8], ElfError>
        requires { table < e_shnum self.now }
        ensures found { IfOk result (λ name. string_at (section_bytes self.now table) at ≡ Some name.now) }
        ensures open { IfErr result (λ e. (e ≡ ElfError.At at) × (string_at (section_bytes self.now table) at ≡ None)) }
    {
        string_at(self.bytes_of(table), at)
    }

    /// The number of the first section of type `SYMTAB`.
    pub fn symbol_table(&self) -> Option<u32>
        ensures { result ≡ first_symtab self.now }
    {
        self.symtab.map(u32::from)
    }

    /// The number of symbols: the whole entries of the first section of type `SYMTAB`, 0 without one.
    /// It stops at 4,294,967,295.
    pub fn symbols(&self) -> u32
        ensures { result ≡ entry_count 24 (symbol_table self.now) }
    {
        entry_count(self.symbol_bytes(), 24)
    }

    /// Entry `i` of the first section of type `SYMTAB`.
    pub fn symbol(&self, i: u32) -> Symbol
        requires { i < entry_count 24 (symbol_table self.now) }
        ensures { result ≡ symbol_at (symbol_table self.now) i }
    {
        symbol_at(self.symbol_bytes(), i)
    }

    /// The number of whole relocations of 16 bytes in section `sec`. It stops at 4,294,967,295.
    pub fn rels(&self, sec: u32) -> u32
        requires { sec < e_shnum self.now }
        ensures { result ≡ entry_count 16 (section_bytes self.now sec) }
    {
        entry_count(self.bytes_of(sec), 16)
    }

    /// Relocation `i` of section `sec`.
    pub fn rel(&self, sec: u32, i: u32) -> Rel
        requires section { sec < e_shnum self.now }
        requires entry { i < entry_count 16 (section_bytes self.now sec) }
        ensures { result ≡ rel_at (section_bytes self.now sec) i }
    {
        rel_at(self.bytes_of(sec), i)
    }

    /// The bytes of the first section of type `SYMTAB`, none without one.
    fn symbol_bytes(&self) -> &'a [u8]
        ensures { result.now ≡ symbol_table self.now }
    {
        match self.symtab {
            Some(i) => span_of(self.bytes, &section_at(self.bytes, i)),
            None => &[],
        }
    }
}
