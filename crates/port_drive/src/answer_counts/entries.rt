//! The entries of a hash.

ghost use Rattle.std.specs.Prelude.{◌≡◌, ◌<◌, length};
ghost use Rattle.xdp_maps.specs.State.{decl_at};
ghost use Rattle.xdp_maps.specs.declared.decl.MapKind.TheVariants.{Hash};
ghost use Rattle.port_drive.specs.AnswerCounts.Counts.{entry_count};

use xdp_maps::state::Maps;

/// How many entries a hash holds.
pub fn entry_count(maps: &Maps, map: u32) -> u32
    requires map { map < length maps.now.decls }
    requires hash { (decl_at maps.now map).kind ≡ Hash }
    ensures { result ≡ entry_count maps.now map }
{
    let decl = &maps.decls()[map as usize];
    let mut room = [0; 40];
    let key = &mut room[..decl.key as usize];
    for i in 0..decl.cap {
        match maps.entry(map, i, key) {
            Some(_) => {}
            None => return i,
        }
    }
    decl.cap
}
