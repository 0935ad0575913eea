// Laws of the shapes of ledgers. The function does nothing: its contract is the laws.
ghost use Rattle.std.specs.Prelude.{◌≡◌, ◌↔◌, ℕ};
ghost use Rattle.ledger_core.specs.declared.note.Note.{Note};
ghost use Rattle.ledger_core.specs.Ledger.{totals_of};
ghost use Rattle.ledger_core.specs.Shape.{FitsShape, IsOldForShape, OverflowsShape, ShapeLacksDebt, shape_marks};
ghost use Rattle.ledger_core.specs.Shape.{shape_of, shape_step, shape_totals};
ghost use Rattle.ledger_core.specs.State.{IsLegal, IsNext, IsOld, LacksDebt, Overflows, State, marks_of, step};

/// The shape of a ledger determines its shape after a note, whether the note is legal and otherwise why not, and what
/// the ledger counts.
pub fn shape_tells()
    ensures steps { (state : State) (note : Note)
        → shape_of (step state note) ≡ shape_step (shape_of state) note }
    ensures fits { (state : State) (note : Note)
        → IsLegal state note ↔ FitsShape (shape_of state) note }
    ensures old { (state : State) (note : Note)
        → IsOld state note ↔ IsOldForShape (shape_of state) note }
    ensures lacks { (state : State) (note : Note)
        → LacksDebt state note ↔ ShapeLacksDebt (shape_of state) note }
    ensures overflows { (state : State) (note : Note)
        → Overflows state note ↔ OverflowsShape (shape_of state) note }
    ensures next { (state : State) (key : ℕ)
        → IsNext (marks_of state) key ↔ IsNext (shape_marks (shape_of state)) key }
    ensures counts { (state : State) → shape_totals (shape_of state) ≡ totals_of state }
{}
