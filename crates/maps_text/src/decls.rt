//! Declarations by number and by name.

ghost use Rattle.std.specs.Prelude.{◌≡◌, ◌<◌, ◌^◌, length, IfSome};
ghost use Rattle.xdp_maps.specs.Contents.{IsWithinLimits};
ghost use Rattle.xdp_maps.specs.State.{decl_at, IsSound};
ghost use Rattle.maps_text.specs.Reading.{map_named};

use xdp_maps::decl::MapDecl;
use xdp_maps::state::Maps;

/// The declaration of a map.
pub(crate) fn decl_of(maps: &Maps, map: u32) -> &MapDecl
    requires { map < length maps.now.decls }
    ensures decl { result.now ≡ decl_at maps.now map }
    ensures limits { IsWithinLimits result.now }
    ensures sound { IsSound maps.now }
{
    &maps.decls()[map as usize]
}

/// The number of the first map of a name.
pub(crate) fn map_named(decls: &[MapDecl], name: &[u8]) -> Option<u32>
    requires { length decls.now < 2 ^ 32 }
    ensures named { result ≡ map_named name.now decls.now }
    ensures within { IfSome result (λ m. m < length decls.now) }
{
    for (i, decl) in decls.iter().enumerate() {
        if decl.name.as_slice() == name {
            return Some(i as u32);
        }
    }
    None
}
