//! The type part: its types by their numbers.

ghost use Rattle.std.specs.Prelude.{◌≡◌, ◌+◌, ◌^◌, ◌<◌, ◌≤◌, length, IfOk, IfSome};
ghost use Rattle.btf_view.specs.Rules.{AreWhole, FailsAs, type_fault, types_fault};
ghost use Rattle.btf_view.specs.Types.{place_of, record_size};
ghost use Rattle.btf_view.specs.Shapes.{HasMembers, shape_at, shape_of};

use crate::error::BtfError;
use crate::kind::TypeKind;
use crate::read::{kind_at, record_size, u32_at, vlen_at};
use crate::shape::Shape;
use std::marker::Model;

/// The type part, whose types are whole and of known kinds. Contracts see it as its bytes.
#[derive(Drop)]
pub struct Types<'a> {
    bytes: &'a [u8],
}

impl<'a> Model for Types<'a> {
    ghost use Rattle.std.specs.Prelude.{ℕ, List};
    ghost use Rattle.btf_view.specs.Rules.{AreWhole};

    ghost Value = { List ℕ };

    ghost view = { λ t. t.bytes.now };

    ghost invariant = { λ t. AreWhole t.bytes.now };
}

/// Where the type `id`, whose record begins at a place, ends. It is an error that it is not whole or of no kind.
#[tactic(auto, unfolding(crate::specs::Rules::type_fault))]
fn checked_end(types: &[u8], id: u32, at: usize) -> Result<usize, BtfError>
    requires few { length types.now < 2 ^ 32 }
    requires inside { at ≤ length types.now }
    ensures error { FailsAs result (type_fault types.now id at) }
    ensures end { IfOk result (λ end. end ≡ at + record_size types.now at) }
    ensures inside { IfOk result (λ end. end ≤ length types.now) }
{
    if types.len() < at + 12 {
        return Err(BtfError::Short);
    }
    if kind_at(types, at).is_none() {
        return Err(BtfError::Kind { id });
    }
    let end = at + record_size(types, at);
    if types.len() < end {
        return Err(BtfError::Short);
    }
    Ok(end)
}

/// The type whose record begins at a place, by what the definition of a map asks of it.
#[tactic(auto, unfolding(crate::specs::Types::record_size))]
fn shape_at(types: &[u8], at: usize) -> Shape
    requires { at + record_size types.now at ≤ length types.now }
    ensures shape { result ≡ shape_at types.now at }
    ensures members { HasMembers types.now result }
{
    let Some(kind) = kind_at(types, at) else {
        return Shape::Unsized;
    };
    let size_or_type = u32_at(types, at + 8);
    match kind {
        TypeKind::Var => Shape::Variable { id: size_or_type },
        TypeKind::Struct => Shape::Structure {
            place: at + 12,
            count: vlen_at(types, at),
            size: size_or_type,
        },
        TypeKind::Ptr => Shape::Pointer { id: size_or_type },
        TypeKind::Array => Shape::ArrayOf {
            id: u32_at(types, at + 12),
            count: u32_at(types, at + 20),
        },
        TypeKind::Typedef
        | TypeKind::Volatile
        | TypeKind::Const
        | TypeKind::Restrict
        | TypeKind::TypeTag => Shape::Modifier { id: size_or_type },
        TypeKind::Int
        | TypeKind::Union
        | TypeKind::Enum
        | TypeKind::Float
        | TypeKind::Datasec
        | TypeKind::Enum64 => Shape::Sized { size: size_or_type },
        TypeKind::Fwd | TypeKind::Func | TypeKind::FuncProto | TypeKind::DeclTag => Shape::Unsized,
    }
}

impl<'a> Types<'a> {
    /// Checks the types of a type part: it fails with the first fault of one, in ascending order.
    #[tactic(auto, using(crate::proofs::Walks::walks))]
    pub fn open(bytes: &'a [u8]) -> Result<Types<'a>, BtfError>
        requires { length bytes.now < 2 ^ 32 }
        ensures error { FailsAs result (types_fault bytes.now) }
        ensures whole { IfOk result (λ types. types ≡ bytes.now) }
    {
        let mut id = 0;
        let mut at = 0;
        while at < bytes.len() {
            id += 1;
            at = checked_end(bytes, id, at)?;
        }
        Ok(Types { bytes })
    }

    /// The bytes.
    pub fn bytes(&self) -> &'a [u8]
        ensures bytes { result.now ≡ self.now }
        ensures whole { AreWhole self.now }
    {
        self.bytes
    }

    /// Where the record of type `id` begins, if there is such a type.
    #[tactic(auto, using(crate::proofs::Walks::walks))]
    pub fn place_of(&self, id: u32) -> Option<usize>
        ensures place { result ≡ place_of self.now id }
        ensures inside { IfSome result (λ at. at + record_size self.now at ≤ length self.now) }
    {
        let mut last = 0;
        let mut at = 0;
        while at < self.bytes.len() {
            last += 1;
            if last == id {
                return Some(at);
            }
            at += record_size(self.bytes, at);
        }
        None
    }

    /// Type `id`, by what the definition of a map asks of it.
    #[tactic(auto, unfolding(crate::specs::Shapes::shape_of))]
    pub fn shape(&self, id: u32) -> Shape
        ensures shape { result ≡ shape_of self.now id }
        ensures members { HasMembers self.now result }
    {
        match self.place_of(id) {
            Some(at) => shape_at(self.bytes, at),
            None => Shape::Unsized,
        }
    }
}
