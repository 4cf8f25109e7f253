// What the maps of a program declare.

ghost use Rattle.std.specs.Prelude.{◌≡◌, ℕ};
ghost use Rattle.kind_core.specs.Kinds.{key_bytes, value_bytes};
ghost use Rattle.kind_core.specs.declared.kind.Kind.TheVariants as kind_is;

use cell_core::xdp_state::xdp_maps::decl::MapDecl;
use kind_core::Kind;

/// The bytes of a map's keys.
pub(crate) fn key_bytes(decls: &[MapDecl], map: u32) -> u32
    ensures { result ≡ key_bytes decls.now map }
{
    match decls.get(map as usize) {
        Some(decl) => decl.key,
        None => 0,
    }
}

/// The bytes of a map's values.
pub(crate) fn value_bytes(decls: &[MapDecl], map: u32) -> u32
    ensures { result ≡ value_bytes decls.now map }
{
    match decls.get(map as usize) {
        Some(decl) => decl.value,
        None => 0,
    }
}

/// The map of a reference.
pub(crate) fn map_in(kind: Kind) -> u32
    ensures { (q : ℕ) → kind ≡ kind_is.MapRef q → result ≡ q }
{
    match kind {
        Kind::MapRef(q) => q,
        _ => 0,
    }
}
