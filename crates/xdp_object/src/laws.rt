//! What holds of objects, whatever their bytes. Each function's contract is a law; it computes nothing.

ghost use Rattle.std.specs.Prelude.{ℕ, ℤ, List};
ghost use Rattle.bpf_isa.specs.declared.instruction.Insn.{Insn};
ghost use Rattle.elf_view.specs.declared.object.MapRecord.{MapRecord};
ghost use Rattle.xdp_object.specs.Choice.{Chosen};
ghost use Rattle.xdp_object.specs.Laws.{LayoutLaw, NumbersLaw, OneOutcome, ProgramLaw, TwoUnitsLaw};
ghost use Rattle.xdp_machine.specs.Program.{XdpProgram};

/// Under a choice, bytes are an object of one program at most, or have one first fault, and never both.
pub fn one_outcome()
    ensures { (choice : Chosen) (bytes : List ℕ) → OneOutcome choice bytes }
{}

/// What `elf_view::object_of` writes of a function with no maps is an object of just that function.
pub fn reads_layout()
    ensures { (name code : List ℕ) (insns : List Insn) → LayoutLaw name code insns }
{}

/// What `elf_view::object_of` writes of a whole program is read back as this program: its code with the numbers of its maps, the
/// maps, numbered as they are first referred to, and the references.
pub fn reads_program()
    ensures { (hash_cap : ℕ) (p : XdpProgram) (code : List ℕ) (insns : List Insn) (maps : List MapRecord) → ProgramLaw hash_cap p code insns maps }
{}

/// The instructions of a program have the numbers of its maps.
pub fn keeps_numbers()
    ensures { (p : XdpProgram) → NumbersLaw p }
{}

/// An object of the program `r0 = k`, `exit` has no maps.
pub fn two_units_alone()
    ensures { (choice : Chosen) (bytes : List ℕ) (p : XdpProgram) (k : ℤ) → TwoUnitsLaw choice bytes p k }
{}
