//! Writing the text of maps.

ghost use Rattle.std.specs.Prelude.{◌≡◌, ◌<◌, ◌≤◌, ◌^◌, ◌++◌, Some, length, IfOk, OnOk};
ghost use Rattle.xdp_maps.specs.Calls.{entry_of};
ghost use Rattle.xdp_maps.specs.State.{decl_at, contents_at};
ghost use Rattle.maps_text.specs.Writing.{line_text, are_zeros, is_left_out, pair_text, map_text, text_of};

use crate::decls::decl_of;
use crate::digits::push_digits;
use std::alloc::{AllocError, Global};
use xdp_maps::decl::{MapDecl, MapKind};
use xdp_maps::laws::pair_laws;
use xdp_maps::short::ShortBytes;
use xdp_maps::state::Maps;

/// The text of what maps hold: a line for each entry of a hash, in the order of the keys' bytes, and for
/// each entry of an array that is not zeros, by index; the maps in the order of their declarations.
pub fn write_maps_text(alloc: Global, maps: &Maps) -> Result<Vec<u8>, AllocError>
    requires few { length maps.now.decls < 2 ^ 32 }
    ensures { IfOk result (λ text. text.items ≡ text_of maps.now) }
{
    let mut text = Vec::new(alloc);
    for map in 0..maps.decls().len() {
        push_map(&mut text, maps, map as u32)?;
    }
    Ok(text)
}

fn push_map(text: &mut Vec<u8>, maps: &Maps, map: u32) -> Result<(), AllocError>
    requires { map < length maps.now.decls }
    ensures { OnOk result (text.new.items ≡ text.old.items ++ map_text (decl_at maps.now map) (contents_at maps.now map)) }
{
    for i in 0..decl_of(maps, map).cap {
        push_pair(text, maps, map, i)?;
    }
    Ok(())
}

fn push_pair(text: &mut Vec<u8>, maps: &Maps, map: u32, i: u32) -> Result<(), AllocError>
    requires { map < length maps.now.decls }
    ensures { OnOk result (text.new.items ≡ text.old.items ++ pair_text (decl_at maps.now map) (entry_of (decl_at maps.now map) (contents_at maps.now map) i)) }
{
    pair_laws();
    let decl = decl_of(maps, map);
    let mut room = [0; ShortBytes::MAX_LEN];
    let key = &mut room[..decl.key as usize];
    match maps.entry(map, i, key) {
        Some(value) if !is_left_out(decl, value) => push_line(text, decl, key, value),
        _ => Ok(()),
    }
}

/// Whether no line says an entry: in an array zeros are what is not listed.
fn is_left_out(decl: &MapDecl, value: &[u8]) -> bool
    ensures { result ≡ is_left_out decl.now.kind value.now }
{
    match decl.kind {
        MapKind::Hash => false,
        MapKind::Array => are_zeros(value),
    }
}

fn are_zeros(value: &[u8]) -> bool
    ensures { result ≡ are_zeros value.now }
{
    value.iter().all(|byte| *byte == 0)
}

fn push_line(text: &mut Vec<u8>, decl: &MapDecl, key: &[u8], value: &[u8]) -> Result<(), AllocError>
    requires key { length key.now ≤ 64 }
    requires value { length value.now ≤ 64 }
    ensures { OnOk result (text.new.items ≡ text.old.items ++ line_text decl.now.name key.now value.now) }
{
    text.extend_from_slice(decl.name.as_slice())?;
    text.push(b' ')?;
    push_digits(text, key)?;
    text.push(b' ')?;
    push_digits(text, value)?;
    text.push(b'\n')?;
    Ok(())
}
