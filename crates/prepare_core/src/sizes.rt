// Whether an object is not too long.

ghost use Rattle.std.specs.Prelude.{◌<◌, ◌≤◌, ◌↔◌, length, All, IsTrue};
ghost use Rattle.elf_view.specs.Layout.{object_size};

use elf_view::MapRecord;

/// The most bytes of a name, of the name of a map, and of code, and the most maps and references, of an object that is written.
const MOST_NAME: usize = 4096;

const MOST_MAP_NAME: usize = 64;

const MOST_CODE: usize = 65_536;

const MOST_MAPS: usize = 16;

const MOST_REFERENCES: usize = 4096;

// Whether the names of maps are short.
fn are_short(maps: &[MapRecord<'_>]) -> bool
    ensures { IsTrue result → All (λ m. length m.name.now ≤ 64) maps.now }
{
    for map in maps {
        if map.name.len() > MOST_MAP_NAME {
            return false;
        }
    }
    true
}

/// Whether references are to these maps.
pub(crate) fn are_within(refs: &[(u32, u32)], maps: &[MapRecord<'_>]) -> bool
    ensures { IsTrue result → All (λ r. r.1 < length maps.now) refs.now }
{
    for reference in refs {
        if reference.1 as usize >= maps.len() {
            return false;
        }
    }
    true
}

/// Whether the object of these parts is not too long.
#[tactic(auto, using(crate::proofs::ObjectSizes::object_short))]
pub(crate) fn fits(name: &str, code: &[u8], maps: &[MapRecord<'_>], refs: &[(u32, u32)]) -> bool
    ensures { IsTrue result → object_size name.now code.now maps.now refs.now ≤ 1048576 }
{
    name.len() <= MOST_NAME
        && code.len() <= MOST_CODE
        && maps.len() <= MOST_MAPS
        && refs.len() <= MOST_REFERENCES
        && are_short(maps)
}
