//! Whether a design reads what is there alone, in time of its length. What the test of all rules asks for besides leaves values as they are.

ghost use Rattle.std.specs.Prelude.{◌≡◌, ◌<◌, ℕ, true, length, count_by};
ghost use Rattle.std.proofs.Common.{get_or};
ghost use Rattle.net_core.specs.Nets.{WireTree, AssignTree, StatementTree};
ghost use Rattle.net_core.specs.declared.tree.Net.{Net};
ghost use Rattle.net_core.specs.View.{netlist_of, tree_of, trees_of, right_of, statement_of, statements_of};
ghost use Rattle.net_core.specs.Names.{is_register, is_memory};
ghost use Rattle.design_rules.specs.FormedSyntax.{trees_pass, all_trees_pass};
ghost use Rattle.design_rules.specs.FormedScope as scope;
ghost use Rattle.net_optimize.specs.Reading.{IsCounted, ReadsWhatIsThere};

use net_core::design::{Declared, Design, Port};
use net_core::tree::{Expr, Net, Parts, Right, Stmt, Stmts};

/// What can be read: the ports of a design, so many registers and memories, and so many of its wires.
#[derive(Clone, Copy)]
pub(crate) struct There<'a> {
    design: &'a Design,
    registers: usize,
    memories: usize,
    wires: usize,
}

// How many registers are declared.
fn registers_of(declared: &[Declared]) -> usize
    ensures { result ≡ count_by is_register declared.now }
{
    declared
        .iter()
        .filter(|d| match d {
            Declared::Register(_) => true,
            Declared::Integer | Declared::Memory { .. } => false,
        })
        .count()
}

// How many memories are declared.
fn memories_of(declared: &[Declared]) -> usize
    ensures { result ≡ count_by is_memory declared.now }
{
    declared
        .iter()
        .filter(|d| match d {
            Declared::Memory { .. } => true,
            Declared::Integer | Declared::Register(_) => false,
        })
        .count()
}

// Whether a port is an input other than `clk`, the first.
fn is_input(ports: &[Port], k: u32) -> bool
    ensures { result ≡ scope.is_input ports.now k }
{
    if k == 0 {
        return false;
    }
    match ports.get(k as usize) {
        Some(port) => !port.output,
        None => false,
    }
}

// Whether a net has a value.
fn is_value(there: There, net: Net) -> bool
    requires { IsCounted there }
    ensures { result ≡ scope.is_value (netlist_of there.entry.design.now) there.entry.wires net }
{
    match net {
        Net::Port(k) => is_input(&there.design.ports, k),
        Net::Register(k) => (k as usize) < there.registers,
        Net::Memory(_) => false,
        Net::Wire(k) => (k as usize) < there.wires,
    }
}

// Whether a net is a memory, whose words can be read.
fn is_words(there: There, net: Net) -> bool
    requires { IsCounted there }
    ensures { result ≡ scope.is_words (netlist_of there.entry.design.now) net }
{
    match net {
        Net::Memory(k) => (k as usize) < there.memories,
        Net::Port(_) | Net::Register(_) | Net::Wire(_) => false,
    }
}

// Whether what an expression reads is there.
#[cycle(reads)]
fn reads_known(there: There, e: &Expr<Net>) -> bool
    requires { IsCounted there }
    ensures { result ≡ scope.reads_known (scope.sorts (netlist_of there.entry.design.now) there.entry.wires) (tree_of e.now) }
{
    match e {
        Expr::Const(_) => true,
        Expr::Read(n) => is_value(there, *n),
        Expr::Bit(n, _) => is_value(there, *n),
        Expr::PartSelect(n, _, _) => is_value(there, *n),
        Expr::MemoryWord(m, i) => is_words(there, *m) && reads_known(there, i),
        Expr::Unary(_, a) => reads_known(there, a),
        Expr::Binary(_, a, b) => reads_known(there, a) & reads_known(there, b),
        Expr::Conditional(c, a, b) => {
            reads_known(there, c) & (reads_known(there, a) & reads_known(there, b))
        }
        Expr::Concatenation(parts) => parts_known(there, parts),
    }
}

// Without a recursion over the parts: there may be any number.
#[cycle(reads)]
fn parts_known(there: There, parts: &Parts<Net>) -> bool
    requires { IsCounted there }
    ensures { result ≡ scope.parts_known (scope.sorts (netlist_of there.entry.design.now) there.entry.wires) (trees_of parts.now) }
{
    let mut left = parts;
    loop {
        match left {
            Parts::Last(a) => return reads_known(there, a),
            Parts::More(a, more) => {
                if !reads_known(there, a) {
                    return false;
                }
                left = more;
            }
        }
    }
}

// Whether what a right side reads is there.
fn right_known(there: There, right: &Right<Net>) -> bool
    requires { IsCounted there }
    ensures { result ≡ scope.right_known (scope.sorts (netlist_of there.entry.design.now) there.entry.wires) (right_of right.now) }
{
    match right {
        Right::Plain(e) => reads_known(there, e),
        Right::Quotient(a, b) | Right::Remainder(a, b) => {
            is_value(there, *a) && is_value(there, *b)
        }
    }
}

// Whether what the expressions of a statement read is there.
#[cycle(stmt_reads)]
fn stmt_known(there: There, stmt: &Stmt<Net>) -> bool
    requires { IsCounted there }
    ensures { result ≡ trees_pass (scope.reads_known (scope.sorts (netlist_of there.entry.design.now) there.entry.wires)) (statement_of stmt.now) }
{
    match stmt {
        Stmt::Block(more) => stmts_known(there, more),
        Stmt::If(c, a) => reads_known(there, c) && stmt_known(there, a),
        Stmt::IfElse(c, a, b) => {
            reads_known(there, c) && stmt_known(there, a) && stmt_known(there, b)
        }
        Stmt::Set(_, e) => reads_known(there, e),
        Stmt::Store(_, i, e) => reads_known(there, i) && reads_known(there, e),
    }
}

// Without a recursion over the statements: there may be any number.
#[cycle(stmt_reads)]
fn stmts_known(there: There, stmts: &Stmts<Net>) -> bool
    requires { IsCounted there }
    ensures { result ≡ all_trees_pass (scope.reads_known (scope.sorts (netlist_of there.entry.design.now) there.entry.wires)) (statements_of stmts.now) }
{
    let mut left = stmts;
    while let Stmts::Then(a, more) = left {
        if !stmt_known(there, a) {
            return false;
        }
        left = more;
    }
    true
}

// Whether each wire reads what is before it.
fn wires_known(design: &Design, registers: usize, memories: usize) -> bool
    requires { IsCounted (record { design = design; registers = registers; memories = memories; wires = 0 }) }
    ensures { result ≡ true → (i : ℕ) (w : WireTree) → i < length (netlist_of design.now).wires → w ≡ get_or (netlist_of design.now).wires i w → scope.right_known (scope.sorts (netlist_of design.now) i) w.right ≡ true }
{
    let all = design.wires.as_slice();
    for k in 0..all.len() {
        let there = There {
            design,
            registers,
            memories,
            wires: k,
        };
        if !right_known(there, &all[k].right) {
            return false;
        }
    }
    true
}

// Whether each output is shown by what is there.
fn assigns_known(there: There) -> bool
    requires counted { IsCounted there }
    ensures { result ≡ true → (i : ℕ) (a : AssignTree) → i < length (netlist_of there.entry.design.now).assigns → a ≡ get_or (netlist_of there.entry.design.now).assigns i a → scope.reads_known (scope.sorts (netlist_of there.entry.design.now) there.entry.wires) a.value ≡ true }
{
    let all = there.design.assigns.as_slice();
    for k in 0..all.len() {
        if !reads_known(there, &all[k].value) {
            return false;
        }
    }
    true
}

// Whether each always block reads what is there.
fn always_known(there: There) -> bool
    requires counted { IsCounted there }
    ensures { result ≡ true → (i : ℕ) (a : StatementTree Net) → i < length (netlist_of there.entry.design.now).always → a ≡ get_or (netlist_of there.entry.design.now).always i a → trees_pass (scope.reads_known (scope.sorts (netlist_of there.entry.design.now) there.entry.wires)) a ≡ true }
{
    let all = there.design.always.as_slice();
    for k in 0..all.len() {
        if !stmt_known(there, &all[k]) {
            return false;
        }
    }
    true
}

/// Whether a design reads what is there alone.
pub(crate) fn reads_what_is_there(design: &Design) -> bool
    ensures { result ≡ true → ReadsWhatIsThere (netlist_of design.now) }
{
    let registers = registers_of(&design.declared);
    let memories = memories_of(&design.declared);
    let there = There {
        design,
        registers,
        memories,
        wires: design.wires.len(),
    };
    if !wires_known(design, registers, memories) {
        return false;
    }
    if !assigns_known(there) {
        return false;
    }
    always_known(there)
}
