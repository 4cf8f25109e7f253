// Which data places a call of a helper reads and writes, and what it may write into a map.

ghost use Rattle.std.specs.Prelude.{◌≡◌};
ghost use Rattle.row_rules.specs.PlaceRows.Spans.{map_of};
ghost use Rattle.row_rules.specs.PlaceRows.Calls.{key_span, call_reads, call_writes, called_on};
ghost use Rattle.kind_core.specs.Kinds as kind;

use crate::place_rows::recording::Record;
use crate::place_rows::span::{
    NONE, Span, key_bytes, map_of, pending_of, region, register, target, value_bytes,
};
use kind_core::Kinds;
use xdp_state::bpf_isa::Helper;
use xdp_state::xdp_maps::decl::MapDecl;

// The key that a call is given.
fn key(decls: &[MapDecl], kinds: &Kinds) -> Span
    ensures { result ≡ key_span decls.now kinds.now }
{
    region(kinds.registers[2], 0, key_bytes(decls, kinds.registers[1]))
}

/// What a call reads: of the operations on maps the key, the flags, and what is pending of the map; of a redirect both numbers and the
/// target.
pub fn call_reads(decls: &[MapDecl], kinds: &Kinds, helper: Option<Helper>) -> [Span; 4]
    ensures { result ≡ call_reads decls.now kinds.now helper }
{
    let pending = pending_of(kinds.registers[1]);
    match helper {
        Some(Helper::Lookup) => [key(decls, kinds), pending, NONE, NONE],
        Some(Helper::Update) => [key(decls, kinds), register(4), pending, NONE],
        Some(Helper::Delete) => [key(decls, kinds), pending, NONE, NONE],
        Some(Helper::Redirect) => [register(1), register(2), target(), NONE],
        Some(Helper::Time) | None => [NONE, NONE, NONE, NONE],
    }
}

/// What a call writes beside R0: a redirect the target.
pub fn call_writes(helper: Option<Helper>) -> Span
    ensures { result ≡ call_writes helper }
{
    match helper {
        Some(Helper::Redirect) => target(),
        _ => NONE,
    }
}

/// The write of a map that a call may make.
pub fn called_on(decls: &[MapDecl], kinds: &Kinds, helper: Option<Helper>) -> Option<Record>
    ensures { result ≡ called_on decls.now kinds.now helper (map_of (kind.register kinds.now 1)) }
{
    let map = map_of(kinds.registers[1])?;
    let key = key(decls, kinds);
    match helper {
        Some(Helper::Update) => {
            let value = region(
                kinds.registers[3],
                0,
                value_bytes(decls, kinds.registers[1]),
            );
            Some(Record {
                map,
                takes: [key, value, NONE],
            })
        }
        Some(Helper::Delete) => Some(Record {
            map,
            takes: [key, NONE, NONE],
        }),
        _ => None,
    }
}
