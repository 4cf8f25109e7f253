// Numbers as operands of sites.

ghost use Rattle.std.specs.Prelude.{◌≡◌, ◌<◌, List, length, IfOk};
ghost use Rattle.kind_core.specs.declared.number.Number.{Number};
ghost use Rattle.kind_core.specs.declared.kind.Kind.TheVariants as kind_is;
ghost use Rattle.operator_cells.specs.Making.{seen, Grows, Makes};
ghost use Rattle.operator_cells.specs.Rising.{Rises};
ghost use Rattle.operator_cells.specs.HeldCells.RegisterCells.{PointerView, number_of};
ghost use Rattle.operator_cells.specs.HeldCells.Rows.{value_row};
ghost use Rattle.site_cells.specs.Words.{HasNumber};

use cell_core::cell::Cell;
use kind_core::Kind;
use operator_cells::cells::constant;
use operator_cells::held_cells::operand::number_cell;
use std::alloc::AllocError;

/// The cell of a number by its kind, or of 0.
pub(crate) fn number_in(cells: &mut Vec<Cell>, kind: Kind, held: u32) -> Result<u32, AllocError>
    requires { HasNumber (length (seen cells.old.items)) kind held }
    ensures made { IfOk result (λ c. Grows (seen cells.old.items) (seen cells.new.items) × (c < length (seen cells.new.items))) }
    ensures number { (n : Number) → kind ≡ kind_is.Num n → IfOk result (λ c. Makes (seen cells.old.items) (seen cells.new.items) c (λ packet v. number_of v n held)) }
    ensures rises { (ps : List PointerView) → IfOk result (λ c. Rises (seen cells.old.items) (seen cells.new.items) c (λ row. value_row row ps kind held)) }
{
    match kind {
        Kind::Num(n) => {
            let c = number_cell(cells, n, held)?;
            Ok(c)
        }
        _ => {
            let c = constant(cells, 0, 1)?;
            Ok(c)
        }
    }
}
