//! How many bits the pointers of a program have.

ghost use Rattle.std.specs.Prelude.{◌≡◌, ◌≤◌, ◌<◌, ◌^◌, ◌+◌, ◌*◌, All};
ghost use Rattle.stage_net.specs.SiteTable.Bits.{FitPointers};

use hazard_core::cell_core::xdp_state::xdp_maps::decl::MapDecl;

// The most entries that a map may have.
fn most_entries(decls: &[MapDecl]) -> u32
    requires { All (λ d. d.cap ≤ 65536) decls.now }
    ensures most { All (λ d. d.cap ≤ result) decls.now }
    ensures small { result ≤ 65536 }
{
    let mut most = 0;
    for decl in decls {
        most = most.max(decl.cap);
    }
    most
}

// How many bits a number needs, at least 3.
fn bits_for(number: u64) -> u8
    requires { number < 2 ^ 34 }
    ensures enough { number < 2 ^ result }
    ensures some { 3 ≤ result }
    ensures most { result ≤ 34 }
{
    for bits in 3u8..34 {
        if number < 1u64 << bits {
            return bits;
        }
    }
    34
}

/// How many bits the numbers of pointers have, for maps of these declarations and so many sites: enough for each slot, and for each entry that an
/// update is to make.
pub fn pointer_bits(decls: &[MapDecl], sites: usize) -> u8
    requires caps { All (λ d. d.cap ≤ 65536) decls.now }
    requires sites { sites < 2 ^ 31 }
    ensures { FitPointers decls.now sites result }
{
    let slots = 4 * u64::from(most_entries(decls)) + 1;
    let updates = 4 * sites as u64;
    bits_for(slots.max(updates))
}
