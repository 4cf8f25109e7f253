//! Reading a text of maps.

ghost use Rattle.std.specs.Prelude.{◌≡◌, ◌<◌, ◌^◌, ◌⊎◌, false, length, replicate, All, IfOk, IfErr, Ok, Err};
ghost use Rattle.xdp_maps.specs.Contents.{IsWithinLimits};
ghost use Rattle.maps_text.specs.Reading.{Gives, outcome};
ghost use Rattle.maps_text.specs.declared.error.MapsError.{MapsError};
ghost use Rattle.maps_text.specs.declared.error.MapsError.TheVariants.{NoMemory};
ghost use Rattle.xdp_maps.specs.State.{MapState};
ghost use Rattle.maps_text.specs.Text.{IsMapsText, IsFirstBad};

use crate::error::MapsError;
use crate::fields::first_line;
use crate::listed::{INDEXES, take};
use std::alloc::{AllocError, Global};
use xdp_maps::decl::MapDecl;
use xdp_maps::laws::same_by_lookups;
use xdp_maps::state::Maps;

/// What the maps of these declarations hold by a text, or its first bad line by the first check that this
/// line fails. It takes the memory of the maps, and 65,536 bytes a map while it reads.
pub fn read_maps_text(alloc: Global, decls: &[MapDecl], text: &[u8]) -> Result<Maps, MapsError>
    requires limits { All IsWithinLimits decls.now }
    requires few { length decls.now < 2 ^ 32 }
    // Which bytes are a text, and of which maps.
    ensures found { IfOk result (IsMapsText decls.now text.now) }
    ensures only { (s : MapState) → IsMapsText decls.now text.now s → Gives result (Ok s) }
    // The fault of others.
    ensures fault { IfErr result (λ e. (e ≡ NoMemory) ⊎ IsFirstBad decls.now text.now e) }
    ensures only_fault { (e : MapsError) → IsFirstBad decls.now text.now e → Gives result (Err e) }
    ensures exact { Gives result (outcome decls.now text.now) }
{
    same_by_lookups();
    read_lines(alloc, decls, text)
}

fn read_lines(alloc: Global, decls: &[MapDecl], text: &[u8]) -> Result<Maps, MapsError>
    requires limits { All IsWithinLimits decls.now }
    requires few { length decls.now < 2 ^ 32 }
    ensures { Gives result (outcome decls.now text.now) }
{
    let mut maps = Maps::new(alloc, decls)?;
    let mut room = unmarked(alloc, decls.len() * INDEXES)?;
    let marks = room.as_mut_slice();
    let mut rest = text;
    let mut n = 0;
    'lines: while !rest.is_empty() {
        let (line, later) = first_line(rest);
        n += 1;
        take(&mut maps, marks, n, line)?;
        rest = later;
    }
    Ok(maps)
}

/// So many marks, none of them set.
fn unmarked(alloc: Global, count: usize) -> Result<Vec<bool>, AllocError>
    ensures { IfOk result (λ marks. marks.items ≡ replicate count false) }
{
    vec![in alloc; false; count]
}
