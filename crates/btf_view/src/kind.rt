//! The kinds of types.

ghost use Rattle.std.specs.Prelude.{◌≡◌, ◌^◌, ◌<◌};
ghost use Rattle.btf_view.specs.Kinds.{data_size, kind_of};

/// The kind of a type, by the names of `Documentation/bpf/btf.rst`, numbered from 1 on.
#[derive(Clone, Copy)]
pub enum TypeKind {
    Int,
    Ptr,
    Array,
    Struct,
    Union,
    Enum,
    Fwd,
    Typedef,
    Volatile,
    Const,
    Restrict,
    Func,
    FuncProto,
    Var,
    Datasec,
    Float,
    DeclTag,
    TypeTag,
    Enum64,
}

/// The kind of a number.
pub fn kind_of(number: u32) -> Option<TypeKind>
    ensures { result ≡ kind_of number }
{
    match number {
        1 => Some(TypeKind::Int),
        2 => Some(TypeKind::Ptr),
        3 => Some(TypeKind::Array),
        4 => Some(TypeKind::Struct),
        5 => Some(TypeKind::Union),
        6 => Some(TypeKind::Enum),
        7 => Some(TypeKind::Fwd),
        8 => Some(TypeKind::Typedef),
        9 => Some(TypeKind::Volatile),
        10 => Some(TypeKind::Const),
        11 => Some(TypeKind::Restrict),
        12 => Some(TypeKind::Func),
        13 => Some(TypeKind::FuncProto),
        14 => Some(TypeKind::Var),
        15 => Some(TypeKind::Datasec),
        16 => Some(TypeKind::Float),
        17 => Some(TypeKind::DeclTag),
        18 => Some(TypeKind::TypeTag),
        19 => Some(TypeKind::Enum64),
        _ => None,
    }
}

/// The size of what stands after the record of a type of this kind, in bytes.
pub fn data_size(kind: TypeKind, vlen: u32) -> usize
    requires { vlen < 2 ^ 16 }
    ensures size { result ≡ data_size kind vlen }
    ensures small { result < 2 ^ 20 }
{
    match kind {
        TypeKind::Int | TypeKind::Var | TypeKind::DeclTag => 4,
        TypeKind::Array => 12,
        TypeKind::Struct | TypeKind::Union | TypeKind::Datasec | TypeKind::Enum64 => 12
            * vlen as usize,
        TypeKind::Enum | TypeKind::FuncProto => 8 * vlen as usize,
        _ => 0,
    }
}
