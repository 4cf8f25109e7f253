//! A map of the program as its block sees it.

ghost use Rattle.std.specs.Prelude.{ℕ, ◌≡◌, ◌≤◌, ◌<◌, ◌^◌};
ghost use Rattle.overlay_net.specs.xdp_maps.Contents.{IsWithinLimits};
ghost use Rattle.commit_net.specs.MapBlock.Forms.{FormFits};

use overlay_net::cell_nets::cell_core::xdp_state::xdp_maps::decl::MapDecl;

/// The number of a map among those of its program, its declaration, and how many bits the number of a slot has.
#[derive(Drop)]
pub struct MapForm {
    pub number: u8,
    pub bits: u8,
    pub decl: MapDecl,
}

/// The least number of bits in which each slot of so many has a number, and at least one.
fn slot_bits(cap: u32) -> u8
    requires { cap ≤ 65536 }
    ensures some { 1 ≤ result }
    ensures most { result ≤ 16 }
    ensures room { cap ≤ 2 ^ result }
    ensures least { (b : ℕ) → 1 ≤ b → cap ≤ 2 ^ b → result ≤ b }
{
    let mut bits = 1;
    while bits < 16 && 1 << bits < cap {
        bits += 1;
    }
    bits
}

/// The form of a map that is declared, with the least bits that are enough.
pub fn form_of(number: u8, decl: &MapDecl) -> MapForm
    requires number { number < 16 }
    requires limits { IsWithinLimits decl.now }
    ensures number { result.number ≡ number }
    ensures decl { result.decl ≡ decl.now }
    ensures form_fits { FormFits result }
{
    MapForm {
        number,
        bits: slot_bits(decl.cap),
        decl: decl.copied(),
    }
}
