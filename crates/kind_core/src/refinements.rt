// What becomes of kinds all at once.

ghost use Rattle.std.specs.Prelude.{◌≡◌, map};
ghost use Rattle.kind_core.specs.Edges.{refined, refined_all, raised};

use crate::base::raised_base;
use crate::kind::{Kind, Kinds};
use crate::number::Number;
use crate::places::WINDOW;

/// What is learnt of pointers.
#[derive(Copy, Clone)]
pub(crate) enum Refinement {
    /// The lookup at a node gave 0.
    IsNull(u32),
    /// The lookup at a node gave an entry.
    IsEntry(u32),
    /// Entries of a map may be gone.
    IsStale(u32),
    /// From the base that a node gave on the packet has so many bytes.
    IsChecked(u32, i32),
}

// What becomes of one kind.
fn refined(refinement: Refinement, kind: Kind) -> Kind
    ensures { result ≡ refined refinement kind }
{
    match (refinement, kind) {
        (Refinement::IsNull(node), Kind::Maybe(_, n)) if n == node => Kind::Num(Number::Known(0)),
        (Refinement::IsEntry(node), Kind::Maybe(q, n)) if n == node => Kind::Entry(q, 0),
        (Refinement::IsStale(map), Kind::Maybe(q, _)) if q == map => Kind::Stale,
        (Refinement::IsStale(map), Kind::Entry(q, _)) if q == map => Kind::Stale,
        (Refinement::IsChecked(node, bytes), Kind::Var(base, f)) if base.node == node => {
            Kind::Var(raised_base(bytes, base), f)
        }
        _ => kind,
    }
}

// What becomes of each.
fn refine_list(refinement: Refinement, kinds: &mut [Kind])
    ensures { kinds.new ≡ map (refined refinement) kinds.old }
{
    for i in 0..kinds.len() {
        kinds[i] = refined(refinement, kinds[i]);
    }
}

/// What becomes of all registers and slots.
pub(crate) fn refine(refinement: Refinement, kinds: &mut Kinds)
    ensures { kinds.new ≡ refined_all refinement kinds.old }
{
    refine_list(refinement, &mut kinds.registers);
    refine_list(refinement, &mut kinds.slots);
}

/// So many bytes of the packet are there.
pub(crate) fn raise(bytes: u32, kinds: &mut Kinds)
    ensures { kinds.new ≡ raised bytes kinds.old }
{
    let seen = bytes.min(WINDOW as u32) as u16;
    kinds.checked = kinds.checked.max(seen);
}
