// The kinds on the edges that leave an instruction.

ghost use Rattle.std.specs.Prelude.{◌≡◌, ◌≤◌};
ghost use Rattle.xdp_machine.specs.bpf_isa.Spelling.{IsInsn};
ghost use Rattle.kind_core.specs.Kinds.{answering};
ghost use Rattle.kind_core.specs.Effects.{effect_of, verdict, IsInside};
ghost use Rattle.kind_core.specs.Edges.{agrees, on_edge, constant, changed, transferred, decision, decided};

use crate::base::new_base;
use crate::conditions::Condition;
use crate::effects::{Effect, effect_of, jump};
use crate::kind::{Kind, Kinds};
use crate::number::{self, Number};
use crate::refinements::{Refinement, raise, refine};
use xdp_machine::bpf_isa::{Insn, Op, Width};
use xdp_machine::xdp_maps::decl::MapDecl;
use xdp_state::Why;

// Whether an edge is the one that is meant.
fn agrees(taken: bool, edge: bool) -> bool
    ensures { result ≡ agrees taken edge }
{
    if taken { edge } else { !edge }
}

// On an edge of a conditional jump.
fn go_along(taken: bool, condition: Condition, kinds: &mut Kinds)
    ensures { kinds.new ≡ on_edge taken condition kinds.old }
{
    match condition {
        Condition::NullTest(equal, node) => {
            if agrees(taken, equal) {
                refine(Refinement::IsNull(node), kinds);
            } else {
                refine(Refinement::IsEntry(node), kinds);
            }
        }
        Condition::BoundsTest(edge, bytes) => {
            if agrees(taken, edge) {
                raise(bytes, kinds);
            }
        }
        Condition::BaseTest(edge, node, bytes) => {
            if agrees(taken, edge) {
                refine(Refinement::IsChecked(node, bytes), kinds);
            }
        }
        Condition::Decided(_) | Condition::Open => {}
    }
}

// A number of 64 bits, or a map.
fn constant(is_ref: bool, imm: i64) -> Kind
    ensures { result ≡ constant is_ref imm }
{
    let n = imm.cast_unsigned();
    if is_ref {
        Kind::MapRef((n % (1 << 32)) as u32)
    } else {
        Kind::Num(Number::Known(n))
    }
}

// The answer of a call.
fn answer(kinds: &mut Kinds, kind: Kind)
    ensures { kinds.new ≡ answering kind kinds.old }
{
    kinds.registers[0] = kind;
    kinds.registers[1] = Kind::Unset;
    kinds.registers[2] = Kind::Unset;
    kinds.registers[3] = Kind::Unset;
    kinds.registers[4] = Kind::Unset;
    kinds.registers[5] = Kind::Unset;
}

// What an effect leaves.
fn change(kinds: &mut Kinds, effect: Effect, node: u32, is_ref: bool, taken: bool)
    requires { IsInside effect }
    ensures { kinds.new ≡ changed node is_ref taken kinds.old effect }
{
    match effect {
        Effect::Nothing => {}
        Effect::Register(r, kind) => kinds.registers[r as usize] = kind,
        Effect::NewBase(r, bounds) => {
            kinds.registers[r as usize] = Kind::Var(new_base(node, bounds), 0);
        }
        Effect::Constant(r, imm) => kinds.registers[r as usize] = constant(is_ref, imm),
        Effect::Slot(s, kind) => kinds.slots[s] = kind,
        Effect::Lookup(q) => answer(kinds, Kind::Maybe(q, node)),
        Effect::Answered => answer(kinds, Kind::Num(number::any(Width::Bits64))),
        Effect::Changed(q) => {
            answer(kinds, Kind::Num(number::any(Width::Bits64)));
            refine(Refinement::IsStale(q), kinds);
        }
        Effect::Compared(condition) => go_along(taken, condition, kinds),
    }
}

/// Whether an instruction is allowed at these kinds, or the first test that it fails.
pub fn allowed(insn: &Insn, kinds: &Kinds, decls: &[MapDecl]) -> Result<(), Why>
    requires { IsInsn insn.now }
    ensures { result ≡ verdict (effect_of decls.now kinds.now insn.now) }
{
    match effect_of(decls, kinds, insn) {
        Ok(_) => Ok(()),
        Err(why) => Err(why),
    }
}

/// Goes along one edge in place: `kinds` becomes the kinds after the instruction. A refused instruction changes nothing.
pub fn advance(
    kinds: &mut Kinds,
    insn: &Insn,
    decls: &[MapDecl],
    node: u32,
    is_ref: bool,
    taken: bool,
)
    requires { IsInsn insn.now }
    ensures { kinds.new ≡ transferred decls.now kinds.old insn.now node is_ref taken }
{
    if let Ok(effect) = effect_of(decls, kinds, insn) {
        change(kinds, effect, node, is_ref, taken);
    }
}

/// The kinds after an allowed instruction at a node, on one edge: `taken` tells which of a conditional jump, `is_ref` whether the
/// place is a reference to a map.
pub fn transfer(
    insn: &Insn,
    kinds: &Kinds,
    decls: &[MapDecl],
    node: u32,
    is_ref: bool,
    taken: bool,
) -> Kinds
    requires { IsInsn insn.now }
    ensures { result ≡ transferred decls.now kinds.now insn.now node is_ref taken }
{
    let mut after = *kinds;
    advance(&mut after, insn, decls, node, is_ref, taken);
    after
}

// Whether a condition is decided.
fn decision(condition: Result<Condition, Why>) -> Option<bool>
    ensures { result ≡ decision condition }
{
    match condition {
        Ok(Condition::Decided(taken)) => Some(taken),
        _ => None,
    }
}

/// Whether a conditional jump is taken, where one of its edges is absent.
pub fn decide(insn: &Insn, kinds: &Kinds) -> Option<bool>
    requires dst { insn.now.dst ≤ 10 }
    requires src { insn.now.src ≤ 10 }
    ensures { result ≡ decided kinds.now insn.now }
{
    match insn.op {
        Op::Jump(width, code, src) => decision(jump(kinds, insn, width, code, src)),
        _ => None,
    }
}
