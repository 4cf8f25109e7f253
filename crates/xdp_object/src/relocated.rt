//! What relocations say of a place.

ghost use Rattle.std.specs.Prelude.{◌≡◌};
ghost use Rattle.xdp_object.specs.Relocations.{both};

/// What the relocations of a function say of one of its units.
#[derive(Clone, Copy, Debug, PartialEq, Eq)]
pub enum Relocated {
    /// There is none.
    Untouched,
    /// It refers to the map that this symbol stands for.
    Refers { symbol: u32 },
    /// It is of another type or place, or there are several.
    Unknown,
}

/// What two relocations of one place say.
pub fn both(a: Relocated, b: Relocated) -> Relocated
    ensures { result ≡ both a b }
{
    match (a, b) {
        (Relocated::Untouched, b) => b,
        (a, Relocated::Untouched) => a,
        _ => Relocated::Unknown,
    }
}
