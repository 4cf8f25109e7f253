//! What a chain of types leads to.

ghost use Rattle.std.specs.Prelude.{◌≡◌, IfOk};
ghost use Rattle.btf_view.specs.Shapes.{HasMembers};
ghost use Rattle.btf_view.specs.Sizes.{capped, map_ok, most_types, size_of, unmodified};

use crate::error::BtfError;
use crate::shape::Shape;
use crate::types::Types;

/// How many modifiers and arrays may be left on the way.
const MAX_STEPS: u32 = 32;

/// As many steps lead through one type more.
const MAX_TYPES: u32 = MAX_STEPS + 1;

impl Types<'_> {
    /// Type `id` without its modifiers. It fails with `Depth` where there are more than 32.
    #[tactic(auto, using(crate::proofs::Chains::chains))]
    pub fn unmodified(&self, mut id: u32) -> Result<Shape, BtfError>
        ensures shape { result ≡ unmodified self.now most_types id }
        ensures members { IfOk result (HasMembers self.now) }
    {
        for _ in 0..MAX_TYPES {
            match self.shape(id) {
                Shape::Modifier { id: next } => id = next,
                shape => return Ok(shape),
            }
        }
        Err(BtfError::Depth)
    }

    /// The size of type `id` in bytes, as far as 32 bits count it. It fails with `Depth` where more than 32 modifiers
    /// and arrays are on the way, and else with `Field` where a type without a size ends it.
    #[tactic(auto, using(crate::proofs::Chains::chains))]
    pub fn size_of(&self, mut id: u32, member: u32) -> Result<u32, BtfError>
        ensures { result ≡ map_ok capped (size_of self.now member most_types id) }
    {
        let mut times = 1u32;
        for _ in 0..MAX_TYPES {
            match self.shape(id) {
                Shape::Sized { size } | Shape::Structure { size, .. } => {
                    return Ok(times.saturating_mul(size));
                }
                Shape::Pointer { .. } => return Ok(times.saturating_mul(8)),
                Shape::ArrayOf { id: element, count } => {
                    times = times.saturating_mul(count);
                    id = element;
                }
                Shape::Modifier { id: next } => id = next,
                Shape::Variable { .. } | Shape::Unsized => {
                    return Err(BtfError::Field { member });
                }
            }
        }
        Err(BtfError::Depth)
    }
}
