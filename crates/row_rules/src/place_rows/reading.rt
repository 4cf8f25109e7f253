// What an instruction reads for its result, and whether the result takes a stage of its own.

ghost use Rattle.std.specs.Prelude.{◌≡◌, ◌≤◌, ◌∷◌, []};
ghost use Rattle.xdp_state.specs.bpf_isa.Spelling.{IsInsn};
ghost use Rattle.kind_core.specs.Access.{compares};
ghost use Rattle.row_rules.specs.PlaceRows.Reading.{left_of, right_of, left_over, is_var, pointer_read, reads_as, is_number, is_entry, is_known, shifts_openly, is_unknown, source_unknown, sums, is_heavy};
ghost use Rattle.row_rules.specs.PlaceRows.Spans.{no_place};
ghost use Rattle.xdp_state.specs.xdp_machine.Atomics.{fetches};
ghost use Rattle.std.specs.Int.{w64, cast_unsigned};

use crate::place_rows::calls::call_reads;
use crate::place_rows::span::{NONE, Span, pending_of, region, register};
use kind_core::{Kind, Kinds, Number};
use xdp_state::bpf_isa::{AluCode, Helper, Insn, Op, Size, Src};
use xdp_state::memory::bytes_in;
use xdp_state::xdp_maps::decl::MapDecl;

/// Whether an atomic change compares with R0.
pub fn compares(insn: &Insn) -> bool
    ensures { result ≡ compares insn.now }
{
    let code = insn.imm.cast_unsigned();
    code - code % 2 == 0xf0
}

/// Whether an atomic change gives the old number.
pub fn fetches(insn: &Insn) -> bool
    ensures { result ≡ fetches (cast_unsigned w64 insn.now.imm) }
{
    insn.imm.cast_unsigned() % 2 == 1
}

// What arithmetic reads.
fn operands(insn: &Insn, code: AluCode, src: Src) -> [Span; 4]
    ensures { result ≡ left_of insn.now code ∷ right_of insn.now src ∷ no_place ∷ no_place ∷ [] }
{
    let a = match code {
        AluCode::Mov => NONE,
        _ => register(insn.dst),
    };
    let b = match src {
        Src::K => NONE,
        Src::X => register(insn.src),
    };
    [a, b, NONE, NONE]
}

// The slot of which a store leaves a part, and the bytes that it may leave at a place that is not known.
fn stored_over(kinds: &Kinds, insn: &Insn, size: Size) -> Span
    requires { insn.now.dst ≤ 10 }
    ensures { result ≡ left_over kinds.now insn.now size }
{
    let base = kinds.registers[insn.dst as usize];
    match (size, base) {
        (_, Kind::Var(_, _)) => region(base, insn.offset, bytes_in(size) as u32),
        (Size::Dw, _) => NONE,
        (_, Kind::Stack(_)) => region(base, insn.offset, bytes_in(size) as u32),
        _ => NONE,
    }
}

// Whether a kind is a place in the packet that is not known.
fn is_var(kind: Kind) -> bool
    ensures { result ≡ is_var kind }
{
    matches!(kind, Kind::Var(_, _))
}

// The pointer of a store to a place that is not known.
fn pointer_read(kinds: &Kinds, insn: &Insn) -> Span
    requires { insn.now.dst ≤ 10 }
    ensures { result ≡ pointer_read kinds.now insn.now }
{
    if is_var(kinds.registers[insn.dst as usize]) {
        register(insn.dst)
    } else {
        NONE
    }
}

/// What an instruction reads for its result.
pub fn reads(decls: &[MapDecl], kinds: &Kinds, insn: &Insn) -> [Span; 4]
    requires { IsInsn insn.now }
    ensures { result ≡ reads_as decls.now kinds.now insn.now insn.now.op }
{
    match insn.op {
        Op::Alu(_, code, src) => operands(insn, code, src),
        Op::Neg(_) | Op::End(_) | Op::Swap => [register(insn.dst), NONE, NONE, NONE],
        Op::Load(size) | Op::LoadSigned(size) => {
            let base = kinds.registers[insn.src as usize];
            [
                register(insn.src),
                region(base, insn.offset, bytes_in(size) as u32),
                pending_of(base),
                NONE,
            ]
        }
        Op::StoreImm(size) => [
            stored_over(kinds, insn, size),
            pointer_read(kinds, insn),
            NONE,
            NONE,
        ],
        Op::Store(size) => [
            register(insn.src),
            stored_over(kinds, insn, size),
            pointer_read(kinds, insn),
            NONE,
        ],
        Op::Atomic(_) => {
            let compared = if compares(insn) { register(0) } else { NONE };
            [
                register(insn.dst),
                register(insn.src),
                compared,
                pending_of(kinds.registers[insn.dst as usize]),
            ]
        }
        Op::Call => call_reads(decls, kinds, Helper::of(insn.imm)),
        _ => [NONE, NONE, NONE, NONE],
    }
}

// Whether a kind is a number.
fn is_number(kind: Kind) -> bool
    ensures { result ≡ is_number kind }
{
    matches!(kind, Kind::Num(_))
}

// Whether a kind is a place in an entry.
fn is_entry(kind: Kind) -> bool
    ensures { result ≡ is_entry kind }
{
    matches!(kind, Kind::Entry(_, _))
}

// Whether a kind is a number that is known.
fn is_known(kind: Kind) -> bool
    ensures { result ≡ is_known kind }
{
    matches!(kind, Kind::Num(Number::Known(_)))
}

// Whether a shift is by a count that is not known.
fn shifts_openly(kinds: &Kinds, insn: &Insn, src: Src) -> bool
    requires { insn.now.src ≤ 10 }
    ensures { result ≡ shifts_openly kinds.now insn.now src }
{
    match src {
        Src::K => false,
        Src::X => !is_known(kinds.registers[insn.src as usize]),
    }
}

// Whether a kind is a number that is not known.
fn is_unknown(kind: Kind) -> bool
    ensures { result ≡ is_unknown kind }
{
    matches!(kind, Kind::Num(Number::Between(_, _)))
}

// Whether the second operand is one.
fn source_unknown(kinds: &Kinds, insn: &Insn, src: Src) -> bool
    requires { insn.now.src ≤ 10 }
    ensures { result ≡ source_unknown kinds.now insn.now src }
{
    match src {
        Src::K => false,
        Src::X => is_unknown(kinds.registers[insn.src as usize]),
    }
}

// Whether a sum is a number, or a place in the packet that was not there before.
fn sums(kinds: &Kinds, after: &Kinds, insn: &Insn, src: Src) -> bool
    requires dst { insn.now.dst ≤ 10 }
    requires src { insn.now.src ≤ 10 }
    ensures { result ≡ sums kinds.now after.now insn.now src }
{
    let sum = after.registers[insn.dst as usize];
    let before = kinds.registers[insn.dst as usize];
    is_number(sum) || (is_var(sum) && (is_unknown(before) || source_unknown(kinds, insn, src)))
}

/// Whether a result stands a row after what is read: of arithmetic that carries, where it is no move of a pointer by a known number, of shifts
/// by a count that is not known, of helpers, of loads from entries, of loads and stores at places that are not known, and of old values.
pub fn takes_stage(kinds: &Kinds, after: &Kinds, insn: &Insn) -> bool
    requires { IsInsn insn.now }
    ensures { result ≡ is_heavy kinds.now after.now insn.now insn.now.op }
{
    match insn.op {
        Op::Alu(_, code, src) => match code {
            AluCode::Add => sums(kinds, after, insn, src),
            AluCode::Sub | AluCode::Mul | AluCode::Div | AluCode::Mod => {
                is_number(after.registers[insn.dst as usize])
            }
            AluCode::Lsh | AluCode::Rsh | AluCode::Arsh => shifts_openly(kinds, insn, src),
            _ => false,
        },
        Op::Neg(_) | Op::Call | Op::Atomic(_) => true,
        Op::Load(_) | Op::LoadSigned(_) => {
            let base = kinds.registers[insn.src as usize];
            is_entry(base) || is_var(base)
        }
        Op::StoreImm(_) | Op::Store(_) => is_var(kinds.registers[insn.dst as usize]),
        _ => false,
    }
}
