//! What it means that a schedule runs where actors fall and rise.

ghost use Rattle.std.specs.Prelude.{◌≡◌, List, Some};
ghost use Rattle.qc_decl.specs.declared.declaration.Declaration.{Declaration};
ghost use Rattle.qc_msg.specs.Steps.{Entry};
ghost use Rattle.qc_script.specs.declared.script.Script.{Script};
ghost use Rattle.tests_falls.specs.Perform.{Move, run_with_falls};
ghost use Rattle.tests_falls.specs.Whole.{IsWholeRun};

/// What a schedule makes to the script's end is a whole run with falls.
pub fn schedules_with_falls_make_whole_runs()
    ensures { (decl : Declaration) (script : Script) (moves : List Move) (h : List Entry)
        → run_with_falls decl script moves ≡ Some h → IsWholeRun decl script h }
{}
