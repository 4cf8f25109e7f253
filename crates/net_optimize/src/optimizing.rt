//! A design of fewer wires, registers and operators.

ghost use Rattle.std.specs.Prelude.{◌≡◌, ◌<◌, IfOk, IfSome, IsTrue, length};
ghost use Rattle.net_core.specs.View.{netlist_of};
ghost use Rattle.design_rules.specs.Formed.{IsWellFormed};
ghost use Rattle.net_core.specs.ProductRules.Products.{no_product_chains};
ghost use Rattle.net_core.specs.declared.tree.Net.{Net};
ghost use Rattle.net_core.specs.Value.{Env};
ghost use Rattle.net_core.specs.Clock.{first_words};
ghost use Rattle.net_core.specs.SameClocks.Same.{ShowTheSame};
ghost use Rattle.design_rules.specs.SolvedWires.Solving.{Solves};
ghost use Rattle.net_optimize.specs.Folding.{AreSameSections, sections_of, netlist_sections};
ghost use Rattle.net_optimize.specs.Reading.{ReadsWhatIsThere};
ghost use Rattle.net_optimize.specs.Renumber.{numbers as numbered};
ghost use Rattle.net_optimize.specs.Short.{IsShort};

use crate::formed::keeps_rules;
use crate::kept::{
    kept_always, kept_assigns, kept_declared, kept_wires, live_registers, live_wires,
};
use crate::live::live_nets;
use crate::names::kept_names;
use crate::reading::reads_what_is_there;
use crate::renumber::{Numbering, numbers};
use crate::sections::{Sections, folded_sections};
use crate::shared_expressions::shared;
use crate::simple_logic::simpler;
use net_core::design::Design;
use net_core::same_clocks::laws::designs_show_their_own;
use register_rules::equal_registers::equal_registers;
use register_rules::narrow_registers::narrower;
use std::alloc::{AllocError, Global};

/// One way to make a design shorter.
#[derive(Clone, Copy)]
enum Step {
    /// Fewer wires and registers.
    Shorter,
    /// The same again, where that made it shorter.
    Again,
    /// Fewer bits of registers and wires, some of which are one bit then.
    Narrower,
    /// Without high bits that are 0 alone, where the former step gave nothing.
    WithoutZeros,
    /// Fewer operators by what is known of the sizes of nets.
    Simpler,
    /// What stands at several places as wires.
    Shared,
}

/// What comes after the first step. What stands for a narrower register is folded where it is read, what is then known of wires makes more
/// of it simpler, and of the wires for what stands at several places those that are read once are read where they are.
const STEPS: [Step; 13] = [
    Step::Again,
    Step::Narrower,
    Step::WithoutZeros,
    Step::Shorter,
    Step::Again,
    Step::Simpler,
    Step::Shorter,
    Step::Simpler,
    Step::Shorter,
    Step::Simpler,
    Step::Shorter,
    Step::Shared,
    Step::Shorter,
];

/// What the last step came to.
#[derive(Clone, Copy)]
enum Outcome {
    Nothing,
    Other,
    Fewer,
}

/// A design, and what the step came to that gave it.
#[derive(Drop)]
struct Best {
    design: Design,
    outcome: Outcome,
}

// Sections that do the same: shared first, so that what is read once is counted after it, and then moved.
fn shortened(alloc: Global, design: &Design) -> Result<Sections, AllocError>
    requires { length design.now.wires.items < 4294967295 }
    ensures count { IfOk result (λ s. length s.wires.items ≡ length design.now.wires.items) }
    ensures same { IfOk result (λ s. (v : Env Net) → Solves v 0 (netlist_of design.now).wires → AreSameSections v (netlist_sections (netlist_of design.now)) (sections_of s)) }
{
    let shared = folded_sections(alloc, &design.wires, &design.assigns, &design.always, false)?;
    let moved = folded_sections(alloc, &shared.wires, &shared.assigns, &shared.always, true)?;
    Ok(moved)
}

/// Which wires and registers stay, and the new numbers of all.
#[derive(Drop)]
struct Kept {
    wires: Vec<bool>,
    registers: Vec<bool>,
    numbers: Numbering,
}

// What stays of these sections, where each register is read as the one that is listed for it.
fn kept_nets(
    alloc: Global,
    design: &Design,
    short: &Sections,
    firsts: Vec<u32>,
) -> Result<Kept, AllocError>
    requires wires { length short.now.wires.items < 4294967295 }
    requires declared { length design.now.declared.items < 4294967295 }
    ensures all_wires { IfOk result (λ k. length k.wires.items ≡ length short.now.wires.items) }
    ensures all_registers { IfOk result (λ k. length k.registers.items ≡ length (first_words design.now.declared.items)) }
    ensures wires { IfOk result (λ k. k.numbers.wires.items ≡ numbered 0 k.wires.items) }
    ensures registers { IfOk result (λ k. k.numbers.registers.items ≡ numbered 0 k.registers.items) }
    ensures firsts { IfOk result (λ k. k.numbers.firsts.items ≡ firsts.items) }
{
    let live = live_nets(alloc, short, design.declared.len(), &firsts)?;
    let wires = live_wires(alloc, &short.wires, &live)?;
    let registers = live_registers(alloc, &design.declared, &live)?;
    let numbers = Numbering {
        wires: numbers(alloc, &wires)?,
        registers: numbers(alloc, &registers)?,
        firsts,
    };
    Ok(Kept {
        wires,
        registers,
        numbers,
    })
}

// A design with these sections in place of its own, of which wires and registers are dropped that nothing reads, and of equal registers
// all but the first.
fn without_dead(
    alloc: Global,
    design: &Design,
    short: &Sections,
    firsts: Vec<u32>,
) -> Result<Design, AllocError>
    requires wires { length short.now.wires.items < 4294967295 }
    requires declared { length design.now.declared.items < 4294967295 }
    ensures { IfOk result (λ d. IsShort (netlist_of design.now) (sections_of short.now) firsts.items (netlist_of d)) }
{
    let kept = kept_nets(alloc, design, short, firsts)?;
    let declared = kept_declared(alloc, &design.declared, &kept.registers)?;
    let wires = kept_wires(alloc, &short.wires, &kept.wires, &kept.numbers)?;
    let assigns = kept_assigns(alloc, &short.assigns, &kept.numbers)?;
    let always = kept_always(alloc, &short.always, &kept.numbers)?;
    let names = kept_names(alloc, design, &kept.registers, wires.len())?;
    let ports = Vec::from_slice(alloc, &design.ports)?;
    Ok(Design {
        names,
        ports,
        declared,
        wires,
        assigns,
        always,
    })
}

// A shorter design, if it has not too many nets.
fn shorter(alloc: Global, design: &Design) -> Result<Option<Design>, AllocError>
    ensures { IfOk result (λ n. IfSome n (λ d. ReadsWhatIsThere (netlist_of design.now) → ReadsWhatIsThere (netlist_of d) → ShowTheSame (netlist_of design.now) (netlist_of d))) }
{
    if design.wires.len() >= u32::MAX as usize || design.declared.len() >= u32::MAX as usize {
        return Ok(None);
    }
    let short = shortened(alloc, design)?;
    let firsts = equal_registers(alloc, design)?;
    let next = without_dead(alloc, design, &short, firsts)?;
    Ok(Some(next))
}

// What a step makes of a design.
fn made(alloc: Global, design: &Design, step: Step) -> Result<Option<Design>, AllocError>
    ensures { IfOk result (λ n. IfSome n (λ d. ReadsWhatIsThere (netlist_of design.now) → ReadsWhatIsThere (netlist_of d) → ShowTheSame (netlist_of design.now) (netlist_of d))) }
{
    match step {
        Step::Shorter | Step::Again => shorter(alloc, design),
        Step::Narrower => narrower(alloc, design, true),
        Step::WithoutZeros => narrower(alloc, design, false),
        Step::Simpler => {
            let next = simpler(alloc, design)?;
            Ok(Some(next))
        }
        Step::Shared => shared(alloc, design),
    }
}

// The same, if it reads what is there, and where care is taken also if it keeps all rules.
fn next(
    alloc: Global,
    design: &Design,
    step: Step,
    is_careful: bool,
) -> Result<Option<Design>, AllocError>
    requires { ReadsWhatIsThere (netlist_of design.now) }
    ensures same { IfOk result (λ n. IfSome n (λ d. ShowTheSame (netlist_of design.now) (netlist_of d))) }
    ensures reads { IfOk result (λ n. IfSome n (λ d. ReadsWhatIsThere (netlist_of d))) }
{
    let Some(next) = made(alloc, design, step)? else {
        return Ok(None);
    };
    if !reads_what_is_there(&next) {
        return Ok(None);
    }
    if is_careful && !keeps_rules(alloc, &next)? {
        return Ok(None);
    }
    Ok(Some(next))
}

// What a step came to.
fn came_to(next: &Design, former: &Design) -> Outcome {
    if next.wires.len() < former.wires.len() || next.declared.len() < former.declared.len() {
        return Outcome::Fewer;
    }
    Outcome::Other
}

// Whether a step is to be tried after one that came to this.
fn is_tried(step: Step, outcome: Outcome) -> bool {
    match step {
        Step::Again => matches!(outcome, Outcome::Fewer),
        Step::WithoutZeros => matches!(outcome, Outcome::Nothing),
        _ => true,
    }
}

// One step further.
fn further(alloc: Global, best: Best, step: Step, is_careful: bool) -> Result<Best, AllocError>
    requires { ReadsWhatIsThere (netlist_of best.design) }
    ensures same { IfOk result (λ b. ShowTheSame (netlist_of best.design) (netlist_of b.design)) }
    ensures reads { IfOk result (λ b. ReadsWhatIsThere (netlist_of b.design)) }
{
    designs_show_their_own();
    let Best { design, outcome } = best;
    if !is_tried(step, outcome) {
        return Ok(Best { design, outcome });
    }
    let Some(better) = next(alloc, &design, step, is_careful)? else {
        return Ok(Best {
            design,
            outcome: Outcome::Nothing,
        });
    };
    let outcome = came_to(&better, &design);
    Ok(Best {
        design: better,
        outcome,
    })
}

// All steps, one after another. Gives nothing where the first one does.
fn stepped(alloc: Global, design: &Design, is_careful: bool) -> Result<Option<Design>, AllocError>
    requires { ReadsWhatIsThere (netlist_of design.now) }
    ensures { IfOk result (λ n. IfSome n (λ d. ShowTheSame (netlist_of design.now) (netlist_of d))) }
{
    let Some(first) = next(alloc, design, Step::Shorter, is_careful)? else {
        return Ok(None);
    };
    let outcome = came_to(&first, design);
    let mut best = Best {
        design: first,
        outcome,
    };
    for step in STEPS {
        best = further(alloc, best, step, is_careful)?;
    }
    let Best { design: last, .. } = best;
    Ok(Some(last))
}

// The same, if it keeps all rules in the end.
fn whole(alloc: Global, design: &Design, is_careful: bool) -> Result<Option<Design>, AllocError>
    requires { IsWellFormed (netlist_of design.now) }
    ensures same { IfOk result (λ n. IfSome n (λ d. ShowTheSame (netlist_of design.now) (netlist_of d))) }
    ensures formed { IfOk result (λ n. IfSome n (λ d. IsWellFormed (netlist_of d))) }
    ensures apart { IfOk result (λ n. IfSome n (λ d. IsTrue (no_product_chains (netlist_of d)))) }
{
    let Some(next) = stepped(alloc, design, is_careful)? else {
        return Ok(None);
    };
    if keeps_rules(alloc, &next)? {
        return Ok(Some(next));
    }
    Ok(None)
}

/// A design that shows the same, with fewer wires, registers and operators: constants and what is the whole or a part of another net stand
/// where they are read, of equal right sides and of registers that hold the same the first one is read, the right side of a wire that is
/// read once stands in its place, registers have no bits that are always 0 at their high end and are one bit where they hold one of two words,
/// known sizes of nets make expressions shorter, what stands at several places is a wire, and what nothing reads is dropped. Where this were to
/// break a rule, the design stays as it is.
pub fn optimized(alloc: Global, design: Design) -> Result<Design, AllocError>
    requires formed { IsWellFormed (netlist_of design) }
    requires apart { IsTrue (no_product_chains (netlist_of design)) }
    ensures same { IfOk result (λ d. ShowTheSame (netlist_of design) (netlist_of d)) }
    ensures formed { IfOk result (λ d. IsWellFormed (netlist_of d)) }
    ensures apart { IfOk result (λ d. IsTrue (no_product_chains (netlist_of d))) }
{
    designs_show_their_own();
    // All rules are tested at the end, and after each step only where one of these was broken then.
    if let Some(shorter) = whole(alloc, &design, false)? {
        return Ok(shorter);
    }
    if let Some(shorter) = whole(alloc, &design, true)? {
        return Ok(shorter);
    }
    Ok(design)
}
