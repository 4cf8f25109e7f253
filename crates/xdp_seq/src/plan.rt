// Programs that are ready to run.

ghost use Rattle.std.specs.Prelude.{◌≡◌, ◌-◌, ◌∷◌, ◌++◌, length, replicate, Some, None, IfOk, OnOk};
ghost use Rattle.xdp_state.specs.bpf_isa.declared.instruction.Insn.{Insn};
ghost use Rattle.xdp_state.specs.bpf_isa.Spelling.{units_of};
ghost use Rattle.xdp_state.specs.bpf_isa.Laid.{laid};
ghost use Rattle.xdp_state.specs.xdp_machine.State.{start};
ghost use Rattle.xdp_state.specs.xdp_machine.Program.{program_code};
ghost use Rattle.xdp_state.specs.xdp_machine.Runs.{run};
ghost use Rattle.xdp_seq.specs.Answers.{Answers};

use crate::run::{Ended, STEP_LIMIT, SeqError, run};
use std::alloc::{AllocError, Global};
use std::marker::Model;
use xdp_object::Program;
use xdp_state::State;
use xdp_state::beat_core::{FRAME_LIMIT, Frame, Meta};
use xdp_state::bpf_isa::Insn;
use xdp_state::xdp_maps::state::Maps;

/// A program that is ready to run, and the state of its machine. Contracts see its code.
#[derive(Drop)]
pub struct SeqPlan {
    units: Vec<Option<Insn>>,
    refs: Vec<u32>,
    state: State,
}

impl Model for SeqPlan {
    ghost use Rattle.xdp_state.specs.xdp_machine.State.{Code};

    ghost Value = { Code };

    ghost use Rattle.xdp_seq.specs.Units.{AreUnits, code_of};

    ghost view = { λ p. code_of p.units.items p.refs.items };

    ghost invariant = { λ p. AreUnits p.units.items };
}

// Adds the units of an instruction.
fn push_units(units: &mut Vec<Option<Insn>>, insn: &Insn) -> Result<(), AllocError>
    ensures { OnOk result (units.new.items ≡ units.old.items ++ (Some insn.now ∷ replicate (units_of insn.now.op - 1) None)) }
{
    units.push(Some(*insn))?;
    if insn.op.units() == 2 {
        units.push(None)?;
    }
    Ok(())
}

// The units of instructions.
fn units_of(alloc: Global, insns: &[Insn]) -> Result<Vec<Option<Insn>>, AllocError>
    ensures { IfOk result (λ units. units.items ≡ laid insns.now) }
{
    let mut units = Vec::new(alloc);
    for insn in insns {
        push_units(&mut units, insn)?;
    }
    Ok(units)
}

impl SeqPlan {
    /// The program, with all the memory that a run needs.
    pub fn open(alloc: Global, program: &Program) -> Result<SeqPlan, AllocError>
        ensures { IfOk result (λ plan. plan ≡ program_code program.now) }
    {
        let units = units_of(alloc, program.insns())?;
        let refs = Vec::from_slice(alloc, program.refs())?;
        Ok(SeqPlan {
            units,
            refs,
            state: State::new(),
        })
    }
}

/// The run of one packet, from the start of the program. The frame and the maps become what the run
/// leaves, and where it has no end, what the steps made of them. It takes no memory.
pub fn run_packet(
    plan: &mut SeqPlan,
    maps: &mut Maps,
    frame: &mut Frame,
    meta: Meta,
) -> Result<Ended, SeqError>
    ensures answer { Answers result (run plan.old STEP_LIMIT (start (record { frame = frame.old; ifindex = meta.ifindex; time = meta.time }) maps.old)) frame.new maps.new }
    ensures plan { plan.new ≡ plan.old }
    ensures frame { length frame.new ≡ length frame.old }
    ensures decls { maps.new.decls ≡ maps.old.decls }
{
    let mut room = [0; FRAME_LIMIT];
    let bytes = &mut room[..frame.len()];
    bytes.copy_from_slice(frame.bytes());
    let result = run_bytes(plan, maps, bytes, meta);
    frame.write(0, bytes);
    result
}

/// The run of one packet of which these are the bytes, likewise.
pub fn run_bytes(
    plan: &mut SeqPlan,
    maps: &mut Maps,
    frame: &mut [u8],
    meta: Meta,
) -> Result<Ended, SeqError>
    ensures answer { Answers result (run plan.old STEP_LIMIT (start (record { frame = frame.old; ifindex = meta.ifindex; time = meta.time }) maps.old)) frame.new maps.new }
    ensures plan { plan.new ≡ plan.old }
    ensures frame { length frame.new ≡ length frame.old }
    ensures decls { maps.new.decls ≡ maps.old.decls }
{
    plan.state.restart(meta);
    run(&plan.units, &plan.refs, &mut plan.state, frame, maps)
}
