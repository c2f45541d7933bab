//! What a plain script asks bounds what is counted of its runs. Each law is the
//! contract of a function with nothing to do.

ghost use Rattle.std.specs.Prelude.{ℕ, ◌+◌, ◌*◌, ◌≤◌, Bool, List, length};
ghost use Rattle.qc_core.specs.Conduct.{IsLawful};
ghost use Rattle.qc_decl.specs.Accepted.{IsAccepted};
ghost use Rattle.qc_decl.specs.declared.declaration.Declaration.{Declaration};
ghost use Rattle.qc_msg.specs.Counts.{carried_of, operations_of};
ghost use Rattle.qc_msg.specs.Steps.{Entry};
ghost use Rattle.qc_script.specs.Runs.{Runs};
ghost use Rattle.qc_script.specs.Sound.{IsScriptFor};
ghost use Rattle.qc_script.specs.declared.script.Script.{Script};
ghost use Rattle.laws_room.specs.Asked.{commands_of, dos_of};
ghost use Rattle.laws_room.specs.Plain.{IsPlain};

/// A run has at most one step for each phase, and for each command 3 and 18 for
/// each site.
#[tactic(auto, using(crate::proofs::Counts::steps_are_few))]
pub fn steps_are_few()
    ensures { (decl : Declaration) (script : Script) → IsAccepted decl → IsPlain script
        → (h : List Entry) (open_inputs : List Bool) → Runs (IsLawful decl) decl script h open_inputs
        → length h ≤ length script.phases + commands_of script * (3 + 18 * decl.sites) }
{}

/// A run commits at most one operation with a response for each `do`.
#[tactic(auto, using(crate::proofs::Counts::operations_are_few))]
pub fn operations_are_few()
    ensures { (decl : Declaration) (script : Script) → IsAccepted decl → IsPlain script
        → (h : List Entry) (open_inputs : List Bool) → Runs (IsLawful decl) decl script h open_inputs
        → operations_of h ≤ dos_of script }
{}

/// At most two messages for each `do` and site carry lines, each at most one for
/// each `do`.
#[tactic(auto, using(crate::proofs::Carried::carried_lines_are_few))]
pub fn carried_lines_are_few()
    ensures { (decl : Declaration) (script : Script) → IsAccepted decl → IsScriptFor decl script → IsPlain script
        → (h : List Entry) (open_inputs : List Bool) → Runs (IsLawful decl) decl script h open_inputs
        → carried_of h ≤ 2 * decl.sites * dos_of script * dos_of script }
{}
