//! The algebra of map contents. Each function's contract is a law; it computes nothing.
ghost use Rattle.std.specs.Prelude.{ℕ, List};
ghost use Rattle.xdp_maps.specs.declared.decl.MapDecl.{MapDecl};
ghost use Rattle.xdp_maps.specs.Contents.{Contents};
ghost use Rattle.xdp_maps.specs.State.{MapState};
ghost use Rattle.xdp_maps.specs.Operations.{Operation};
ghost use Rattle.xdp_maps.specs.Laws.{UpdateLaws, DeleteLaws, EntryLaws, PairLaws, KeepsOver, SameByLookups, IndexLaws, OperationsKeepSound, KeepsUnwritten, ReadsDecide};

/// An update leaves its value under its key and touches no other.
pub fn update_laws()
    ensures { (d : MapDecl) (c : Contents) (key value : List ℕ) (flags : ℕ) → UpdateLaws d c key value flags }
{}

/// A deletion removes its key and touches no other.
pub fn delete_laws()
    ensures { (d : MapDecl) (c : Contents) (key : List ℕ) → DeleteLaws d c key }
{}

/// A store and an atomic change touch the value under their key alone.
pub fn entry_laws()
    ensures { (c : Contents) (key : List ℕ) (f : List ℕ → List ℕ) → EntryLaws c key f }
{}

/// The numbered pairs are those that lookups find.
pub fn pair_laws()
    ensures { (d : MapDecl) (c : Contents) → PairLaws d c }
{}

/// A hash never holds more keys than its capacity, and an array always its indexes.
pub fn keeps_over()
    ensures { (d : MapDecl) (c : Contents) → KeepsOver d c }
{}

/// What lookups answer is all that contents are.
pub fn same_by_lookups()
    ensures { SameByLookups }
{}

/// An array's index and key give each other.
pub fn index_laws()
    ensures { IndexLaws }
{}

/// An operation that fits its map leaves all maps as their declarations allow.
pub fn operations_keep_sound()
    ensures { OperationsKeepSound }
{}

/// What an operation does not write stays.
pub fn keeps_unwritten()
    ensures { (s : MapState) (q : ℕ) (op : Operation) → KeepsUnwritten s q op }
{}

/// What an operation reads decides what it answers and touches.
pub fn reads_decide()
    ensures { ReadsDecide }
{}
