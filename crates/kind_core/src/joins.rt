// What is known where two edges meet.

ghost use Rattle.std.specs.Prelude.{◌≡◌, length};
ghost use Rattle.kind_core.specs.Joins.{join_kind, join_list, join_offsets, joined};

use crate::base::{joined_base, same_base};
use crate::kind::{Kind, Kinds, Offsets};
use crate::number::join_number;

// The kind of what is one of two.
fn join_kind(a: Kind, b: Kind) -> Kind
    ensures { result ≡ join_kind a b }
{
    match (a, b) {
        (Kind::Unset, _) | (_, Kind::Unset) => Kind::Unset,
        (Kind::Num(x), Kind::Num(y)) => Kind::Num(join_number(x, y)),
        (Kind::Packet(o), Kind::Packet(p)) if o == p => a,
        (Kind::Var(x, f), Kind::Var(y, g)) if same_base(x, y) && f == g => {
            Kind::Var(joined_base(x, y), f)
        }
        (Kind::End, Kind::End) => Kind::End,
        (Kind::Stack(o), Kind::Stack(p)) if o == p => a,
        (Kind::Ctx, Kind::Ctx) => Kind::Ctx,
        (Kind::MapRef(q), Kind::MapRef(r)) if q == r => a,
        (Kind::Maybe(q, n), Kind::Maybe(r, m)) if q == r && n == m => a,
        (Kind::Entry(q, o), Kind::Entry(r, p)) if q == r && o == p => a,
        (Kind::Stale, Kind::Stale) => Kind::Stale,
        _ => Kind::Mixed,
    }
}

// Joins kinds in place.
fn join_list(a: &mut [Kind], b: &[Kind])
    requires { length a.old ≡ length b.now }
    ensures { a.new ≡ join_list a.old b.now }
{
    for i in 0..b.len() {
        a[i] = join_kind(a[i], b[i]);
    }
}

// Offsets may vary where they may on both sides.
fn join_offsets(a: Offsets, b: Offsets) -> Offsets
    ensures { result ≡ join_offsets a b }
{
    match (a, b) {
        (Offsets::Varying, Offsets::Varying) => Offsets::Varying,
        _ => Offsets::Fixed,
    }
}

/// Joins kinds in place: `a` becomes what is known where both meet.
pub fn join_into(a: &mut Kinds, b: &Kinds)
    ensures { a.new ≡ joined a.old b.now }
{
    join_list(&mut a.registers, &b.registers);
    join_list(&mut a.slots, &b.slots);
    a.checked = a.checked.min(b.checked);
    a.offsets = join_offsets(a.offsets, b.offsets);
}

/// What is known where two edges meet.
pub fn join(a: &Kinds, b: &Kinds) -> Kinds
    ensures { result ≡ joined a.now b.now }
{
    let mut both = *a;
    join_into(&mut both, b);
    both
}
