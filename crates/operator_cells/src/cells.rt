// A cell more.

ghost use Rattle.std.specs.Prelude.{ℕ, ◌≡◌, ◌<◌, ◌≤◌, false, [], ◌∷◌, length, All, IfOk, max, ◌+◌};
ghost use Rattle.cell_core.specs.Cells.{is_read, bit, is_heavy};
ghost use Rattle.cell_core.specs.Formed.{takes, divides, AreInputs, IsInRange, IsSome};
ghost use Rattle.cell_core.specs.xdp_machine.Arithmetic.{low};
ghost use Rattle.operator_cells.specs.Making.{seen, IsAlone, Adds, Makes, GrowsWith, Grows, operated};
ghost use Rattle.operator_cells.specs.Dividing.{some, divided, divider};
ghost use Rattle.cell_core.specs.Rows.{greatest};
ghost use Rattle.operator_cells.specs.Rising.{Rises};

use cell_core::cell::Cell;
use cell_core::operator::Operator;
use smallvec::SmallVec;
use std::alloc::AllocError;

/// Adds a cell, and says which number it has.
fn push(
    cells: &mut Vec<Cell>,
    op: Operator,
    ins: &[u32],
    from: u32,
    width: u32,
) -> Result<u32, AllocError>
    ensures { IfOk result (λ c. Adds (seen cells.old.items) (seen cells.new.items) c (record { op = op; ins = ins.now; width = width; from = from })) }
{
    let Ok(at) = u32::try_from(cells.len()) else {
        return Err(AllocError);
    };
    let ins = SmallVec::from_slice(*cells.allocator(), ins)?;
    cells.push(Cell {
        op,
        ins,
        width,
        from,
    })?;
    Ok(at)
}

/// Adds a cell of an operator that reads no map and does not divide: so many bits of its number, from one on.
pub fn operate(
    cells: &mut Vec<Cell>,
    op: Operator,
    ins: &[u32],
    from: u32,
    width: u32,
) -> Result<u32, AllocError>
    requires earlier { All (λ i. i < length (seen cells.old.items)) ins.now }
    requires enough { takes op ≤ length ins.now }
    requires inputs { AreInputs op ins.now }
    requires alone { IsAlone op ins.now }
    requires in_range { IsInRange op }
    requires plain { is_read op ≡ false }
    requires undivided { divides op ≡ false }
    requires from { from ≤ 63 }
    requires width { width ≤ 64 }
    ensures adds { IfOk result (λ c. Adds (seen cells.old.items) (seen cells.new.items) c (record { op = op; ins = ins.now; width = width; from = from })) }
    ensures makes { IfOk result (λ c. Makes (seen cells.old.items) (seen cells.new.items) c (operated op ins.now from width)) }
    ensures rises { IfOk result (λ c. Rises (seen cells.old.items) (seen cells.new.items) c (λ row. greatest row ins.now + bit (is_heavy op))) }
{
    let c = push(cells, op, ins, from, width)?;
    Ok(c)
}

/// Adds a cell that is 1 where the key of a site is there, else 0. Its inputs count for rows alone.
pub fn found(cells: &mut Vec<Cell>, site: u32, ins: &[u32]) -> Result<u32, AllocError>
    requires { All (λ i. i < length (seen cells.old.items)) ins.now }
    ensures adds { IfOk result (λ c. Adds (seen cells.old.items) (seen cells.new.items) c (record { op = Operator.Found site; ins = ins.now; width = 1; from = 0 })) }
    ensures grows { IfOk result (λ c. GrowsWith (λ k j. j ≡ site) (seen cells.old.items) (seen cells.new.items)) }
    ensures rises { IfOk result (λ c. Rises (seen cells.old.items) (seen cells.new.items) c (λ row. greatest row ins.now + 1)) }
{
    let c = push(cells, Operator::Found(site), ins, 0, 1)?;
    Ok(c)
}

/// Adds a cell of so many bits of what the operation of a site answers. Its inputs count for rows alone.
pub fn answer(cells: &mut Vec<Cell>, site: u32, ins: &[u32], width: u32) -> Result<u32, AllocError>
    requires earlier { All (λ i. i < length (seen cells.old.items)) ins.now }
    requires width { width ≤ 64 }
    ensures adds { IfOk result (λ c. Adds (seen cells.old.items) (seen cells.new.items) c (record { op = Operator.Answer site; ins = ins.now; width = width; from = 0 })) }
    ensures grows { IfOk result (λ c. GrowsWith (λ k j. j ≡ site) (seen cells.old.items) (seen cells.new.items)) }
    ensures rises { IfOk result (λ c. Rises (seen cells.old.items) (seen cells.new.items) c (λ row. greatest row ins.now + 1)) }
{
    let c = push(cells, Operator::Answer(site), ins, 0, width)?;
    Ok(c)
}

/// Adds a cell that stands for the writes of a map: it has no bits, and the greatest row of its inputs.
pub fn pending(cells: &mut Vec<Cell>, ins: &[u32]) -> Result<u32, AllocError>
    requires { All (λ i. i < length (seen cells.old.items)) ins.now }
    ensures adds { IfOk result (λ c. Adds (seen cells.old.items) (seen cells.new.items) c (record { op = Operator.Pending; ins = ins.now; width = 0; from = 0 })) }
    ensures grows { IfOk result (λ c. Grows (seen cells.old.items) (seen cells.new.items)) }
    ensures rises { IfOk result (λ c. Rises (seen cells.old.items) (seen cells.new.items) c (λ row. greatest row ins.now)) }
{
    let c = push(cells, Operator::Pending, ins, 0, 0)?;
    Ok(c)
}

/// A number.
pub fn constant(cells: &mut Vec<Cell>, n: u64, width: u32) -> Result<u32, AllocError>
    requires { width ≤ 64 }
    ensures makes { IfOk result (λ c. Makes (seen cells.old.items) (seen cells.new.items) c (operated (Operator.Constant n) [] 0 width)) }
    ensures rises { IfOk result (λ c. Rises (seen cells.old.items) (seen cells.new.items) c (λ row. 0)) }
{
    operate(cells, Operator::Constant(n), &[], 0, width)
}

/// So many bits of a cell's value, from one on.
pub fn slice(cells: &mut Vec<Cell>, a: u32, from: u32, width: u32) -> Result<u32, AllocError>
    requires there { a < length (seen cells.old.items) }
    requires from { from ≤ 63 }
    requires width { width ≤ 64 }
    ensures adds { IfOk result (λ c. Adds (seen cells.old.items) (seen cells.new.items) c (record { op = Operator.Wire; ins = a ∷ []; width = width; from = from })) }
    ensures makes { IfOk result (λ c. Makes (seen cells.old.items) (seen cells.new.items) c (operated Operator.Wire (a ∷ []) from width)) }
    ensures rises { IfOk result (λ c. Rises (seen cells.old.items) (seen cells.new.items) c (λ row. row a)) }
{
    operate(cells, Operator::Wire, &[a], from, width)
}

/// A bit in a new cell, after all others.
pub fn copy_bit(cells: &mut Vec<Cell>, a: u32) -> Result<u32, AllocError>
    requires { a < length (seen cells.old.items) }
    ensures makes { IfOk result (λ c. Makes (seen cells.old.items) (seen cells.new.items) c (operated Operator.Wire (a ∷ []) 0 1)) }
    ensures new { IfOk result (λ c. c ≡ length (seen cells.old.items)) }
    ensures rises { IfOk result (λ c. Rises (seen cells.old.items) (seen cells.new.items) c (λ row. row a)) }
{
    let c = push(cells, Operator::Wire, &[a], 0, 1)?;
    Ok(c)
}

// The operator of a quotient or of a remainder.
fn divider(rest: bool) -> Operator
    ensures { result ≡ divider rest }
{
    if rest {
        Operator::Remainder
    } else {
        Operator::Quotient
    }
}

/// The quotient of two numbers, or the remainder, of so many bits; the divisor is cut to them, and 1 where it is 0. It is made once both
/// numbers are there.
pub fn divide_some(
    cells: &mut Vec<Cell>,
    rest: bool,
    a: u32,
    b: u32,
    width: u32,
) -> Result<u32, AllocError>
    requires left { a < length (seen cells.old.items) }
    requires right { b < length (seen cells.old.items) }
    requires least { 1 ≤ width }
    requires most { width ≤ 64 }
    ensures makes { IfOk result (λ c. Makes (seen cells.old.items) (seen cells.new.items) c (λ packet v. low width (divided rest (low 64 (v a)) (some (low width (v b)))))) }
    ensures rises { IfOk result (λ c. Rises (seen cells.old.items) (seen cells.new.items) c (λ row. max (row a) (row b) + 1)) }
{
    let own = push(cells, Operator::Wire, &[b], 0, width)?;
    let divisor = push(cells, Operator::NonZero, &[own, a], 0, width)?;
    let c = push(cells, divider(rest), &[a, divisor], 0, width)?;
    Ok(c)
}
