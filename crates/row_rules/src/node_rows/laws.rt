//! What holds of programs and their stages. Each function's contract is a law; it computes nothing.

ghost use Rattle.row_rules.specs.NodeRows.Acceptance.{HasOneOutcome};
ghost use Rattle.kind_core.specs.declared.kind.Offsets.{Offsets};
ghost use Rattle.xdp_state.specs.xdp_machine.Program.{XdpProgram};

/// A program has one first refusal at most, and none where it is accepted.
pub fn has_one_outcome()
    ensures { (offsets : Offsets) (p : XdpProgram) → HasOneOutcome offsets p }
{}
