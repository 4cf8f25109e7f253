//! What a design has so far, and what its names stand for.

ghost use Rattle.std.specs.Prelude.{◌≡◌, [], ℕ};
ghost use Rattle.std.specs.List.{list_any};
ghost use Rattle.std.specs.Str.{bytes_eq};
ghost use Rattle.net_core.specs.View.{netlist_of};
ghost use Rattle.net_core.specs.Width as width;
ghost use Rattle.verilog_read.specs.Entries.{entry_in, free_in};
ghost use Rattle.verilog_read.specs.Header.{no_design};

use crate::flags::is_up;
use crate::targets::Targets;
use indexmap::IndexMap;
use net_core::design::Design;
use net_core::tree::Net;
use std::alloc::Global;
use std::marker::Model;
use verilog_expression::{Entry, Names};

/// A design whose names are known. What they stand for is looked up by hash, so that a text takes time by its length.
#[derive(Drop)]
pub(crate) struct Partial<'a> {
    pub(crate) design: Design,
    /// What each name of the design stands for. The names are those of the text.
    pub(crate) entries: IndexMap<&'a [u8], Entry>,
    pub(crate) counts: Counts,
    /// What always blocks set.
    pub(crate) targets: Targets,
    /// The ports to which something is assigned.
    pub(crate) assigned: Vec<bool>,
}

/// How many of each are declared.
#[derive(Clone, Copy)]
pub(crate) struct Counts {
    pub(crate) integers: u32,
    pub(crate) registers: u32,
    pub(crate) memories: u32,
}

impl<'a> Model for Partial<'a> {
    ghost use Rattle.net_core.specs.declared.design.Design.{Design as Made};
    ghost use Rattle.net_core.specs.View.{netlist_of};
    ghost use Rattle.verilog_read.specs.View.{IsKnown};
    ghost use Rattle.net_core.specs.contracts.design.Design as made;

    ghost Value = { Made };

    ghost coded = { made.the_row.coded };

    ghost view = { λ p. p.design };

    ghost invariant = { λ p. IsKnown (netlist_of p.design) p.entries.entries p.counts p.targets p.assigned.items };
}

impl<'a> Names for Partial<'a> {
    ghost names = { λ d. entry_in (netlist_of d) };

    ghost free = { λ d. free_in (netlist_of d) };

    fn find(&self, name: &[u8]) -> Option<Entry> {
        if name == b"clk".as_slice() {
            return Some(Entry::Clock);
        }
        self.entries.get(name).copied()
    }

    #[tactic(auto, unfolding(crate::specs::Entries::free_in))]
    fn is_free(&self, target: Net) -> bool {
        match target {
            Net::Port(_) => true,
            Net::Register(k) => !is_up(&self.targets.registers, k as usize),
            Net::Memory(k) => !is_up(&self.targets.memories, k as usize),
            Net::Wire(_) => true,
        }
    }
}

impl<'a> Partial<'a> {
    /// Nothing so far.
    pub(crate) fn new(alloc: Global) -> Partial<'a>
        ensures { netlist_of result ≡ no_design }
    {
        let design = Design {
            names: Vec::new(alloc),
            ports: Vec::new(alloc),
            declared: Vec::new(alloc),
            wires: Vec::new(alloc),
            assigns: Vec::new(alloc),
            always: Vec::new(alloc),
        };
        let counts = Counts {
            integers: 0,
            registers: 0,
            memories: 0,
        };
        let targets = Targets {
            registers: Vec::new(alloc),
            memories: Vec::new(alloc),
        };
        Partial {
            design,
            entries: IndexMap::new(alloc),
            counts,
            targets,
            assigned: Vec::new(alloc),
        }
    }

    /// Whether something of the design has a name.
    pub(crate) fn has_name(&self, name: &[u8]) -> bool
        ensures { result ≡ list_any (bytes_eq name.now) (netlist_of self.now).names }
    {
        self.entries.contains_key(name)
    }

    /// Whether something is assigned to a port.
    pub(crate) fn is_assigned(&self, port: usize) -> bool
        ensures { result ≡ width.is_assigned (netlist_of self.now).assigns port }
    {
        is_up(&self.assigned, port)
    }
}
