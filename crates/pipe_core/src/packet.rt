//! A packet in a place.

ghost use Rattle.std.specs.Prelude.{◌≡◌, ◌≤◌, ◌<◌, ◌&&◌, ◌||◌, ℕ, length, not, slice_index, nat_le, false, map as map_list, IfOk};
ghost use Rattle.std.specs.Option.{ForSome};
ghost use Rattle.std.proofs.Common.{get_or};
ghost use Rattle.hazard_core.specs.cell_core.Formed.{AllFit};
ghost use Rattle.hazard_core.specs.cell_core.Sites.{site_at, with_bytes};
ghost use Rattle.hazard_core.specs.cell_core.View.{program_of};
ghost use Rattle.hazard_core.specs.StageValues.{stage_value, writes};
ghost use Rattle.hazard_core.specs.Marks.{known_on, known_off, is_marked};
ghost use Rattle.pipe_core.specs.Machine.{injected, entered, marked_by, must_reload, chosen, marked_at, site_numbers};
ghost use Rattle.pipe_core.specs.Planned.{build_of, arrival_of, IsUsable, IsPacketOf};

use crate::arrived::Arrived;
use crate::planned::Planned;
use hazard_core::cell_core::program::{CellProgram, PacketIn};
use hazard_core::change::Change;
use hazard_core::marks::{is_marked, known_off, known_on};
use hazard_core::pending::writes;
use hazard_core::rows::{Source, take_row};
use hazard_core::site::site_at;
use hazard_core::stage_values::StageValues;
use hazard_core::tables::Tables;
use std::alloc::{AllocError, Global};
use std::marker::Model;

/// What a packet holds, and of each site whether what it read there may have changed since. Contracts see a `Packet` of the machine.
#[derive(Drop)]
pub struct Packet {
    held: StageValues,
    marks: Vec<bool>,
}

impl Model for Packet {
    ghost use Rattle.pipe_core.specs.Machine.{Packet};

    ghost Value = { Packet };

    ghost view = { λ x. record { held = x.held; marks = x.marks.items } };
}

impl Packet {
    /// A packet at its injection.
    pub fn new(alloc: Global, program: &CellProgram) -> Result<Packet, AllocError>
        ensures packet { IfOk result (λ x. x ≡ injected (program_of program.now)) }
        ensures of { IfOk result (λ x. IsPacketOf (program_of program.now) x) }
    {
        let count = program.sites.len();
        Ok(Packet {
            held: StageValues::new(alloc, program)?,
            marks: vec![in alloc; false; count]?,
        })
    }

    /// What it holds of the cells.
    pub fn held(&self) -> &StageValues
        ensures { result.now ≡ self.now.held }
    {
        &self.held
    }

    /// Is a packet at its injection again.
    #[tactic(auto, using(crate::proofs::Fitting::injected_of))]
    pub(crate) fn clear(&mut self, program: &CellProgram)
        requires { IsPacketOf (program_of program.now) self.old }
        ensures packet { self.new ≡ injected (program_of program.now) }
        ensures of { IsPacketOf (program_of program.now) self.new }
    {
        self.held.clear();
        self.marks.fill(false);
    }

    /// Enters place k. `other` is any packet.
    #[tactic(auto, unfolding(crate::specs::Machine::entered))]
    pub(crate) fn enter(
        &mut self,
        planned: &Planned,
        k: u32,
        tables: &Tables,
        source: &Source,
        other: &PacketIn,
    )
        requires usable { IsUsable (program_of planned.now.program.now) }
        requires fits { AllFit tables.now.decls (program_of planned.now.program.now).sites }
        requires of { IsPacketOf (program_of planned.now.program.now) self.old }
        ensures packet { self.new ≡ entered (build_of planned.now) tables.now k (arrival_of source.now) self.old }
        ensures of { IsPacketOf (program_of planned.now.program.now) self.new }
    {
        take_row(
            planned.program,
            &planned.rows,
            k,
            tables,
            source,
            other,
            &mut self.held,
        );
        keep_marks(planned, k, &self.held, &mut self.marks);
    }

    /// A change marks it at place k.
    #[tactic(auto, unfolding(crate::specs::Machine::marked_by))]
    pub(crate) fn mark_by(&mut self, planned: &Planned, k: u32, tables: &Tables, change: &Change)
        requires fits { AllFit tables.now.decls (program_of planned.now.program.now).sites }
        requires of { IsPacketOf (program_of planned.now.program.now) self.old }
        ensures packet { self.new ≡ marked_by (build_of planned.now) tables.now k change.now self.old }
        ensures of { IsPacketOf (program_of planned.now.program.now) self.new }
    {
        mark_by_marks(planned, k, tables, &self.held, change, &mut self.marks);
    }

    /// Whether the mark of a site sends it back from place k.
    fn must_reload_at(&self, planned: &Planned, k: u32, j: usize) -> bool
        requires site { j < length planned.now.program.now.sites.items }
        ensures { result ≡ (marked_at self.now j && known_on (slice_index planned.now.rows.items) k self.now.held (site_at (program_of planned.now.program.now).sites j)) }
    {
        j < self.marks.len()
            && self.marks[j]
            && known_on(&planned.rows, k, &self.held, site_at(planned.program, j))
    }

    /// Whether a mark whose guard is known as 1 sends it back from place k.
    #[tactic(auto, using(crate::proofs::Numbered::any_on, crate::proofs::Numbered::any_here, crate::proofs::Numbered::any_past), unfolding(crate::specs::Machine::must_reload))]
    pub(crate) fn must_reload(&self, planned: &Planned, k: u32) -> bool
        ensures { result ≡ must_reload (build_of planned.now) k self.now }
    {
        for j in 0..planned.program.sites.len() {
            if self.must_reload_at(planned, k, j) {
                return true;
            }
        }
        false
    }

    /// Whether a site is not through whose operation writes.
    fn writes_from(&self, planned: &Planned, tables: &Tables, done: usize, j: usize) -> bool
        requires site { j < length planned.now.program.now.sites.items }
        requires fits { AllFit tables.now.decls (program_of planned.now.program.now).sites }
        ensures { result ≡ (nat_le done j && writes (program_of planned.now.program.now) tables.now.decls self.now.held j) }
    {
        done <= j && writes(planned.program, tables, &self.held, j)
    }

    /// The least site that is not through whose operation writes.
    #[tactic(auto, using(crate::proofs::Numbered::find_on, crate::proofs::Numbered::find_here, crate::proofs::Numbered::find_past))]
    pub(crate) fn chosen(&self, planned: &Planned, tables: &Tables, done: usize) -> Option<usize>
        requires { AllFit tables.now.decls (program_of planned.now.program.now).sites }
        ensures chosen { result ≡ chosen (build_of planned.now) tables.now done self.now }
        ensures site { ForSome result (λ j. j < length planned.now.program.now.sites.items) }
    {
        for j in 0..planned.program.sites.len() {
            if self.writes_from(planned, tables, done, j) {
                return Some(j);
            }
        }
        None
    }

    /// The verdict that it leaves with.
    pub(crate) fn verdict(&self, program: &CellProgram) -> u32
        requires usable { IsUsable (program_of program.now) }
        requires of { IsPacketOf (program_of program.now) self.now }
        ensures { result ≡ stage_value self.now.held (program_of program.now).verdict }
    {
        self.held.value(program.verdict as usize) as u32
    }

    /// The interface that it is sent on to.
    pub(crate) fn target(&self, program: &CellProgram) -> u32
        requires usable { IsUsable (program_of program.now) }
        requires of { IsPacketOf (program_of program.now) self.now }
        ensures { result ≡ stage_value self.now.held (program_of program.now).target }
    {
        self.held.value(program.target as usize) as u32
    }

    /// Its frame as it leaves.
    pub(crate) fn put_bytes(&self, program: &CellProgram, frame: &mut Arrived)
        requires usable { IsUsable (program_of program.now) }
        requires of { IsPacketOf (program_of program.now) self.now }
        ensures { frame.new ≡ record frame.old { frame = with_bytes (stage_value self.now.held) frame.old.frame (program_of program.now).frame } }
    {
        for byte in &program.frame {
            frame.set(byte.at as usize, self.held.value(byte.cell as usize) as u8);
        }
    }
}

/// The mark of a site where the rows up to one are there: none where its guard is known as 0.
fn kept_mark(planned: &Planned, k: u32, held: &StageValues, j: usize, mark: bool) -> bool
    requires { j < length planned.now.program.now.sites.items }
    ensures { result ≡ (mark && not (known_off (slice_index planned.now.rows.items) k held.now (site_at (program_of planned.now.program.now).sites j))) }
{
    mark && !known_off(&planned.rows, k, held, site_at(planned.program, j))
}

/// Drops the marks whose guard is known as 0.
#[tactic(auto, using(crate::proofs::Numbered::made_none, crate::proofs::Numbered::made_more, crate::proofs::Numbered::made_all))]
fn keep_marks(planned: &Planned, k: u32, held: &StageValues, marks: &mut Vec<bool>)
    requires { length marks.old.items ≡ length planned.now.program.now.sites.items }
    ensures count { length marks.new.items ≡ length marks.old.items }
    ensures marks { let b = build_of planned.now in
        marks.new.items ≡ map_list (λ j. get_or marks.old.items j false && not (known_off b.plan.row k held.now (site_at b.program.sites j))) (site_numbers b.program) }
{
    for j in 0..planned.program.sites.len() {
        marks[j] = kept_mark(planned, k, held, j, marks[j]);
    }
}

/// The mark of a site after a change.
fn marked_by_mark(
    planned: &Planned,
    k: u32,
    tables: &Tables,
    held: &StageValues,
    change: &Change,
    j: usize,
    mark: bool,
) -> bool
    requires site { j < length planned.now.program.now.sites.items }
    requires fits { AllFit tables.now.decls (program_of planned.now.program.now).sites }
    ensures { result ≡ (mark || is_marked (program_of planned.now.program.now) (slice_index planned.now.rows.items) tables.now.decls k held.now change.now j) }
{
    mark || is_marked(planned.program, &planned.rows, tables, k, held, change, j)
}

/// Marks the sites whose reads a change touches.
#[tactic(auto, using(crate::proofs::Numbered::made_none, crate::proofs::Numbered::made_more, crate::proofs::Numbered::made_all))]
fn mark_by_marks(
    planned: &Planned,
    k: u32,
    tables: &Tables,
    held: &StageValues,
    change: &Change,
    marks: &mut Vec<bool>,
)
    requires fits { AllFit tables.now.decls (program_of planned.now.program.now).sites }
    requires count { length marks.old.items ≡ length planned.now.program.now.sites.items }
    ensures count { length marks.new.items ≡ length marks.old.items }
    ensures marks { let b = build_of planned.now in
        marks.new.items ≡ map_list (λ j. get_or marks.old.items j false || is_marked b.program b.plan.row tables.now.decls k held.now change.now j) (site_numbers b.program) }
{
    for j in 0..planned.program.sites.len() {
        marks[j] = marked_by_mark(planned, k, tables, held, change, j, marks[j]);
    }
}
