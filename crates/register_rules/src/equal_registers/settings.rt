//! Where statements set registers, and to what, found once for all of them.

ghost use Rattle.std.specs.Prelude.{◌≡◌, ◌++◌, ◌<◌, ℕ, suc, [], ◌∷◌, length, map, IfOk, OnOk};
ghost use Rattle.net_core.specs.View.{statement_of, statements_of};
ghost use Rattle.register_rules.specs.EqualRegisters.Settings.{setting_of, behind, all_behind, settings as sets_of, all_settings, block_settings, of_register, list_at, AreListed};

use net_core::tree::{Expr, Net, Stmt, Stmts};
use std::alloc::{AllocError, Global};

/// A register is set at a place. What is set at one place is set under the same conditions, with no condition in between.
#[derive(Clone, Copy)]
pub(crate) struct Setting<'a> {
    pub(crate) register: u32,
    pub(crate) place: usize,
    pub(crate) value: &'a Expr<Net>,
}

// The next place. There is memory for fewer places than there are numbers.
fn next(place: usize) -> Result<usize, AllocError>
    ensures { IfOk result (λ q. q ≡ suc place) }
{
    if place == usize::MAX {
        return Err(AllocError);
    }
    Ok(place + 1)
}

// Adds what a statement sets that begins at a place. Gives the place behind it.
#[cycle(settings)]
fn add<'a>(
    all: &mut Vec<Setting<'a>>,
    place: usize,
    stmt: &'a Stmt<Net>,
) -> Result<usize, AllocError>
    ensures place { IfOk result (λ q. q ≡ behind place (statement_of stmt.now)) }
    ensures settings { IfOk result (λ q. map setting_of all.new.items ≡ map setting_of all.old.items ++ sets_of place (statement_of stmt.now)) }
{
    match stmt {
        Stmt::Block(more) => {
            let inside = next(place)?;
            let end = add_all(all, inside, more)?;
            let after = next(end)?;
            Ok(after)
        }
        Stmt::If(_, a) => {
            let inside = next(place)?;
            let end = add(all, inside, a)?;
            let after = next(end)?;
            Ok(after)
        }
        Stmt::IfElse(_, a, b) => {
            let inside = next(place)?;
            let middle = add(all, inside, a)?;
            let other = next(middle)?;
            let end = add(all, other, b)?;
            let after = next(end)?;
            Ok(after)
        }
        Stmt::Set(register, value) => {
            all.push(Setting {
                register: *register,
                place,
                value,
            })?;
            Ok(place)
        }
        Stmt::Store(..) => Ok(place),
    }
}

// Without a recursion over the statements: there may be any number.
#[cycle(settings)]
fn add_all<'a>(
    all: &mut Vec<Setting<'a>>,
    place: usize,
    stmts: &'a Stmts<Net>,
) -> Result<usize, AllocError>
    ensures place { IfOk result (λ q. q ≡ all_behind place (statements_of stmts.now)) }
    ensures settings { IfOk result (λ q. map setting_of all.new.items ≡ map setting_of all.old.items ++ all_settings place (statements_of stmts.now)) }
{
    let mut at = place;
    let mut left = stmts;
    while let Stmts::Then(stmt, more) = left {
        at = add(all, at, stmt)?;
        left = more;
    }
    Ok(at)
}

// What always blocks set.
fn settings(alloc: Global, always: &[Stmt<Net>]) -> Result<Vec<Setting<'_>>, AllocError>
    ensures { IfOk result (λ all. map setting_of all.items ≡ block_settings 0 (map statement_of always.now)) }
{
    let mut all = Vec::new(alloc);
    let mut at = 0;
    for stmt in always {
        let end = add(&mut all, at, stmt)?;
        at = next(end)?;
    }
    Ok(all)
}

// One more of what is set of its register, if that is listed.
fn put<'a>(lists: &mut Vec<Vec<Setting<'a>>>, setting: Setting<'a>) -> Result<(), AllocError>
    ensures count { OnOk result (length lists.new.items ≡ length lists.old.items) }
    ensures each { OnOk result ((k : ℕ) → k < length lists.old.items → list_at lists.new.items k ≡ list_at lists.old.items k ++ of_register k (setting_of setting.entry ∷ [])) }
{
    let k = setting.register as usize;
    if k >= lists.len() {
        return Ok(());
    }
    lists[k].push(setting)?;
    Ok(())
}

// So many lists of nothing.
fn no_lists<'a>(alloc: Global, count: usize) -> Result<Vec<Vec<Setting<'a>>>, AllocError>
    ensures { IfOk result (λ lists. AreListed count lists.items []) }
{
    let mut lists = Vec::new(alloc);
    'filling: while lists.len() < count {
        lists.push(Vec::new(alloc))?;
    }
    Ok(lists)
}

// Of each register, so many, what is set of it.
fn by_register<'a>(
    alloc: Global,
    all: &[Setting<'a>],
    count: usize,
) -> Result<Vec<Vec<Setting<'a>>>, AllocError>
    ensures { IfOk result (λ lists. AreListed count lists.items (map setting_of all.now)) }
{
    let mut lists = no_lists(alloc, count)?;
    for setting in all {
        put(&mut lists, *setting)?;
    }
    Ok(lists)
}

/// Of each register, so many, what always blocks set it to, and where.
pub(crate) fn listed(
    alloc: Global,
    always: &[Stmt<Net>],
    count: usize,
) -> Result<Vec<Vec<Setting<'_>>>, AllocError>
    ensures { IfOk result (λ lists. AreListed count lists.items (block_settings 0 (map statement_of always.now))) }
{
    let all = settings(alloc, always)?;
    let lists = by_register(alloc, &all, count)?;
    Ok(lists)
}
