//! Writing a small object.

ghost use Rattle.std.specs.Prelude.{◌≡◌, ◌<◌, ◌≤◌, length, All, IfOk, None};
ghost use Rattle.elf_view.specs.Layout.{object_layout, object_size, sizes_of};
ghost use Rattle.elf_view.specs.Rules.{first_error};

use crate::headers::{put_base_headers, put_map_headers, section_count};
use crate::pieces::elf_header;
use crate::sizes::Sizes;
use crate::strings::{put_strings, strings_len};
use crate::tables::{put_padding, put_records, put_rels, put_symbols};
use std::alloc::{AllocError, Global};

/// A map of an object: its name, and the five words of its record, which are its type, the sizes of
/// its keys and values, the greatest number of its entries, and its flags.
#[derive(Clone, Copy, Debug)]
pub struct MapRecord<'a> {
    pub name: &'a str,
    pub words: [u32; 5],
}

/// The sizes of the parts of the object.
fn sizes_of(name: &str, code: &[u8], maps: &[MapRecord<'_>], refs: &[(u32, u32)]) -> Sizes
    requires { object_size name.now code.now maps.now refs.now ≤ 1048576 }
    ensures { result ≡ sizes_of name.now code.now maps.now refs.now }
{
    Sizes {
        code: code.len() as u64,
        symbols: 24 * (2 + maps.len() as u64),
        rels: 16 * refs.len() as u64,
        records: 20 * maps.len() as u64,
        strings: strings_len(name, maps) as u64,
    }
}

/// The bytes of a relocatable ELF64 object for eBPF with one function.
///
/// The function `name` is all of the section `xdp`, whose bytes are `code`; each map has a record of 20
/// bytes in the section `maps`, five little-endian words; and each pair of `refs`, the place of an
/// instruction unit and the number of a map, is a relocation of type `R_BPF_64_64` at eight times the
/// place. Without maps the sections `maps` and `.relxdp` are left out. What is written has no error by
/// the rules of `ElfView::open`.
pub fn object_of(
    alloc: Global,
    name: &str,
    code: &[u8],
    maps: &[MapRecord<'_>],
    refs: &[(u32, u32)],
) -> Result<Vec<u8>, AllocError>
    requires maps { All (λ r. r.1 < length maps.now) refs.now }
    requires fits { object_size name.now code.now maps.now refs.now ≤ 1048576 }
    ensures bytes { IfOk result (λ object. object.items ≡ object_layout name.now code.now maps.now refs.now) }
    ensures opens { IfOk result (λ object. first_error object.items ≡ None) }
    ensures size { IfOk result (λ object. length object.items ≡ object_size name.now code.now maps.now refs.now) }
{
    let sizes = sizes_of(name, code, maps, refs);
    let mut out = Vec::new(alloc);
    out.extend_from_slice(&elf_header(sizes.headers_at(), section_count(maps)))?;
    out.extend_from_slice(code)?;
    put_symbols(&mut out, name.len() as u32, code.len() as u64, maps)?;
    put_rels(&mut out, refs)?;
    put_records(&mut out, maps)?;
    put_padding(&mut out, 20 * maps.len())?;
    put_strings(&mut out, name, maps)?;
    put_padding(&mut out, strings_len(name, maps))?;
    put_base_headers(&mut out, &sizes)?;
    put_map_headers(&mut out, name.len() as u32, &sizes, maps)?;
    Ok(out)
}
