//! Scripts with room. Each law is the contract of a function with nothing to do.

ghost use Rattle.std.specs.Prelude.{ℕ, ◌<◌, ◌≤◌, Bool, List, length};
ghost use Rattle.qc_core.specs.Conduct.{IsLawfulWithFalls};
ghost use Rattle.qc_decl.specs.Accepted.{IsAccepted};
ghost use Rattle.qc_decl.specs.Limits.{most_carried_lines, most_committed_operations, most_steps};
ghost use Rattle.qc_decl.specs.One.{three};
ghost use Rattle.qc_decl.specs.declared.declaration.Declaration.{Declaration};
ghost use Rattle.qc_gen.specs.Load.{load_of};
ghost use Rattle.qc_msg.specs.Counts.{carried_of, operations_of};
ghost use Rattle.qc_msg.specs.Steps.{Entry};
ghost use Rattle.qc_promise.specs.Spent.{Spent};
ghost use Rattle.qc_script.specs.RunsWithFalls.{RunsWithFalls};
ghost use Rattle.qc_script.specs.Sound.{IsScriptFor};
ghost use Rattle.qc_script.specs.declared.script.Script.{Script};
ghost use Rattle.laws_room.specs.Room.{HasRoom};

use qc_script::ConductWithFalls;

/// Where a script has room, and no disk failed of itself, no run of it reaches a
/// limit.
#[tactic(auto, using(crate::proofs::Below::steps_below, crate::proofs::Below::operations_below, crate::proofs::Below::lines_below))]
pub fn runs_with_room_reach_no_limit<C: ConductWithFalls>()
    ensures steps { (decl : Declaration) (script : Script) → IsAccepted decl → IsScriptFor decl script
        → HasRoom decl script → (h : List Entry) (open_inputs : List Bool)
        → RunsWithFalls (IsLawfulWithFalls decl) C.fits decl script h open_inputs → Spent h 0
        → length h < most_steps }
    ensures operations { (decl : Declaration) (script : Script) → IsAccepted decl → IsScriptFor decl script
        → HasRoom decl script → (h : List Entry) (open_inputs : List Bool)
        → RunsWithFalls (IsLawfulWithFalls decl) C.fits decl script h open_inputs → Spent h 0
        → operations_of h < most_committed_operations }
    ensures lines { (decl : Declaration) (script : Script) → IsAccepted decl → IsScriptFor decl script
        → HasRoom decl script → (h : List Entry) (open_inputs : List Bool)
        → RunsWithFalls (IsLawfulWithFalls decl) C.fits decl script h open_inputs → Spent h 0
        → carried_of h < most_carried_lines }
{}

/// Loads of up to 500 transactions have room over the declaration that they are
/// written for.
#[tactic(auto, using(crate::proofs::Loads::loads_have_room))]
pub fn loads_have_room()
    ensures { (count seed : ℕ) → count ≤ 500 → HasRoom three (load_of count seed) }
{}
