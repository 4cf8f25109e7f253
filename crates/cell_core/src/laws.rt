//! What holds of all values of cells. Each function's contract is a law; it computes nothing.

ghost use Rattle.cell_core.specs.CellLaws.{ValuesFit, ReadsDecide, HaveValues, DivisorsAreSome};
ghost use Rattle.cell_core.specs.SiteLaws.{SitesKeep, ValuesKeep};
ghost use Rattle.cell_core.specs.Rows.{RowsRise};

/// Every value fits its width.
pub fn values_fit()
    ensures { ValuesFit }
{}

/// The values of the reads decide those of all cells.
pub fn reads_decide()
    ensures { ReadsDecide }
{}

/// Whatever values that fit the reads are to have, there are values of the cells with these.
pub fn have_values()
    ensures { HaveValues }
{}

/// No divisor is 0, whatever the reads hold.
pub fn divisors_are_some()
    ensures { DivisorsAreSome }
{}

/// Sites that take cells below a number leave maps that the values of these decide.
pub fn sites_keep()
    ensures { SitesKeep }
{}

/// A value of a cell rests on the cells that it and the site of its read take, and the sites before that.
pub fn values_keep()
    ensures { ValuesKeep }
{}

/// No value is made in an earlier row than one that it takes.
pub fn rows_rise()
    ensures { RowsRise }
{}
