//! Laws of drills, each the contract of a function that does nothing.
ghost use Rattle.std.specs.Prelude.{◌+◌, ℕ, List, take};
ghost use Rattle.drill_script.specs.declared.read.Script.{Script};
ghost use Rattle.world_core.specs.Laws.{Comes};
ghost use Rattle.world_core.specs.declared.fault.Fault.{Fault};
ghost use Rattle.drill.specs.Drill.{WasRefused, WasTaken};

/// What a drill prints comes from a world that has come about by the steps of its script: by all of them, or by those
/// up to and including the one that was refused. So each law over any steps (`world_core`) holds of it.
pub fn a_drill_is_a_run()
    ensures taken { (script : Script) (printed : List ℕ) → (was : WasTaken script printed)
        → Comes was.begun script.steps.items was.lines was.later }
    ensures refused { (script : Script) (printed : List ℕ) (line : ℕ) (fault : Fault)
        → (was : WasRefused script printed line fault)
        → Comes was.begun (take (was.index + 1) script.steps.items) was.lines was.later }
{}
