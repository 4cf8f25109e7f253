//! The values of cells that are no reads.

ghost use Rattle.std.specs.Prelude.{ℕ, ◌≡◌, ◌≤◌, ◌^◌, ◌<◌, false, slice_index, map as map_list};
ghost use Rattle.std.specs.List.{list_any};
ghost use Rattle.xdp_state.specs.xdp_machine.Arithmetic.{low, arithmetic, holds};
ghost use Rattle.cell_core.specs.Cells.{number, bits_from, bit, on, joined, phi, value_in};
ghost use Rattle.cell_core.specs.Formed.{IsInRange};
ghost use Rattle.cell_core.specs.View.{packet_of};

use crate::operator::Operator;
use crate::program::PacketIn;
use xdp_state::arithmetic;
use xdp_state::bits_core::sext;
use xdp_state::bpf_isa::{AluCode, JumpCode, Width};

/// So many low bits of a number.
fn low(n: u64, width: u32) -> u64
    requires { width ≤ 64 }
    ensures value { result ≡ low width n }
    ensures word { result < 2 ^ width }
{
    if width < 64 { n % (1 << width) } else { n }
}

/// So many bits of a number, from one on.
pub fn bits_from(n: u64, from: u32, width: u32) -> u64
    requires from { from ≤ 63 }
    requires width { width ≤ 64 }
    ensures value { result ≡ bits_from n from width }
    ensures word { result < 2 ^ width }
{
    low(n >> from, width)
}

/// The value that a list has for a cell, 0 past its end.
pub fn value_in(values: &[u64], cell: u32) -> u64
    ensures { result ≡ value_in values.now cell }
{
    let at = cell as usize;
    if at < values.len() { values[at] } else { 0 }
}

/// The value of an input, 0 past the last.
pub(crate) fn input(values: &[u64], ins: &[u32], at: usize) -> u64
    ensures { result ≡ slice_index (map_list (value_in values.now) ins.now) at }
{
    if at < ins.len() {
        value_in(values, ins[at])
    } else {
        0
    }
}

/// The inputs above one another.
fn joined(bits: u32, values: &[u64], ins: &[u32]) -> u64
    requires { bits ≤ 63 }
    ensures { result ≡ joined bits (map_list (value_in values.now) ins.now) }
{
    ins.iter()
        .map(|i| value_in(values, *i))
        .fold(0u64, |higher, x| (higher << bits).wrapping_add(x))
}

/// The value of the first edge that is on, or of the last.
fn phi(values: &[u64], ins: &[u32]) -> u64
    ensures { result ≡ phi (map_list (value_in values.now) ins.now) }
{
    let mut left = ins;
    while let [edge, taken, rest @ ..] = left {
        if rest.is_empty() || value_in(values, *edge) != 0 {
            return value_in(values, *taken);
        }
        left = rest;
    }
    0
}

/// Whether an input is not 0.
fn any(values: &[u64], ins: &[u32]) -> bool
    ensures { result ≡ list_any on (map_list (value_in values.now) ins.now) }
{
    ins.iter().map(|i| value_in(values, *i)).any(|x| x != 0)
}

/// 1 for a truth, else 0.
pub(crate) fn bit(b: bool) -> u64
    ensures { result ≡ bit b }
{
    if b { 1 } else { 0 }
}

fn alu(code: AluCode, a: u64, b: u64) -> u64
    ensures { result ≡ arithmetic code false 64 (low 64 a) (low 64 b) }
{
    arithmetic::arithmetic(code, false, Width::Bits64, a, b)
}

fn compare(code: JumpCode, a: u64, b: u64) -> u64
    ensures { result ≡ bit (holds code 64 (low 64 a) (low 64 b)) }
{
    bit(arithmetic::holds(code, Width::Bits64, a, b))
}

fn byte(frame: &[u8], at: u32) -> u64
    ensures { result ≡ slice_index frame.now at }
{
    let at = at as usize;
    if at < frame.len() {
        u64::from(frame[at])
    } else {
        0
    }
}

/// The number of an operator on the values of its inputs, of which those of earlier cells are listed.
pub fn number(packet: &PacketIn, op: Operator, values: &[u64], ins: &[u32]) -> u64
    requires { IsInRange op }
    ensures { result ≡ number (packet_of packet.now) op (map_list (value_in values.now) ins.now) }
{
    let a = input(values, ins, 0);
    let b = input(values, ins, 1);
    match op {
        Operator::Constant(n) => n,
        Operator::Byte(i) => byte(packet.frame.bytes(), i),
        Operator::Length => packet.frame.len() as u64,
        Operator::Ifindex => u64::from(packet.ifindex),
        Operator::Time => packet.time,
        Operator::Wire | Operator::Later => a,
        Operator::Join(bits) => joined(bits, values, ins),
        Operator::SignExtend(bits) => sext(low(a, bits), bits),
        Operator::Not => !a,
        Operator::And => alu(AluCode::And, a, b),
        Operator::Or => alu(AluCode::Or, a, b),
        Operator::Xor => alu(AluCode::Xor, a, b),
        Operator::Any => bit(any(values, ins)),
        Operator::Select => { if a != 0 { b } else { input(values, ins, 2) } }
        Operator::Phi => phi(values, ins),
        Operator::Difference | Operator::Sub => alu(AluCode::Sub, a, b),
        Operator::Quotient => alu(AluCode::Div, a, b),
        Operator::Remainder => alu(AluCode::Mod, a, b),
        Operator::Add => alu(AluCode::Add, a, b),
        Operator::Mul => alu(AluCode::Mul, a, b),
        Operator::ShiftLeft => alu(AluCode::Lsh, a, b),
        Operator::ShiftRight => alu(AluCode::Rsh, a, b),
        Operator::Equal => compare(JumpCode::Jeq, a, b),
        Operator::Less => compare(JumpCode::Jlt, a, b),
        Operator::LessOrEqual => compare(JumpCode::Jle, a, b),
        Operator::NonZero => if a != 0 { a } else { 1 },
        Operator::Found(_) | Operator::Answer(_) | Operator::Pending => 0,
    }
}
