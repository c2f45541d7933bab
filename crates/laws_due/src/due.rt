//! Laws of runs with falls, each the contract of a function with nothing to do.

ghost use Rattle.std.specs.Prelude.{◌≤◌, ◌<◌, ℕ, Bool, List, []};
ghost use Rattle.laws_due.specs.Declares.{Declares};
ghost use Rattle.qc_core.specs.Conduct.{IsLawfulWithFalls};
ghost use Rattle.qc_decl.specs.Accepted.{IsAccepted};
ghost use Rattle.qc_decl.specs.Actors.{actors, client_actor};
ghost use Rattle.qc_decl.specs.declared.declaration.Declaration.{Declaration};
ghost use Rattle.laws_due.specs.Risen.{AllRisePlanned};
ghost use Rattle.laws_turns.specs.Asked.{AsksDeclared};
ghost use Rattle.qc_link.specs.Limits.{most_actors};
ghost use Rattle.laws_turns.specs.OwnRises.{RiseWithOwn};
ghost use Rattle.qc_msg.specs.Deeds.{deeds};
ghost use Rattle.qc_msg.specs.Steps.{Entry};
ghost use Rattle.qc_promise.specs.Due.{Due};
ghost use Rattle.qc_promise.specs.Kept.{Kept};
ghost use Rattle.qc_promise.specs.Replies.{AreRepliesDue};
ghost use Rattle.qc_script.specs.RunsWithFalls.{RunsWithFalls};
ghost use Rattle.qc_script.specs.declared.script.Script.{Script};
ghost use Rattle.laws_turns.specs.EachRun.{OfEachRun};

use qc_script::ConductWithFalls;

/// In every run with falls each deed of a client is due, through its falls and
/// rises and whatever the records that it rises with, where what comes to it is
/// declared.
#[tactic(auto, using(crate::proofs::Clients::clients_of_runs_with_falls_are_due))]
pub fn clients_of_runs_with_falls_are_due<C: ConductWithFalls>()
    ensures { OfEachRun C.fits (λ decl script h open_inputs. (client : ℕ) → client < decl.clients
        → Declares decl (deeds (client_actor decl client) [] h)
        → AreRepliesDue decl client (deeds (client_actor decl client) [] h)) }
{}

/// So it is, of a script that asks for what is declared, where each record that
/// rises names epochs with plans: then nobody tells of another.
#[tactic(auto, using(crate::proofs::Declared::replies_are_due_with_falls))]
pub fn replies_are_due_with_falls<C: ConductWithFalls>()
    ensures { (decl : Declaration) (script : Script) → IsAccepted decl → AsksDeclared decl script
        → (h : List Entry) (open_inputs : List Bool)
        → RunsWithFalls (IsLawfulWithFalls decl) C.fits decl script h open_inputs → AllRisePlanned decl h
        → actors decl ≤ most_actors
        → (client : ℕ) → client < decl.clients
        → AreRepliesDue decl client (deeds (client_actor decl client) [] h) }
{}

/// All is due in every run with falls: actors go by turns, messages reach their
/// receivers, and each deed of a client and of the administrator and each post of
/// a site is due; where what rises names epochs with plans, and clients rise with commit records that
/// name stamps of their transactions' own clients.
#[tactic(auto, using(crate::proofs::AllDue::runs_with_falls_are_due))]
pub fn runs_with_falls_are_due<C: ConductWithFalls>()
    ensures { (decl : Declaration) (script : Script) → IsAccepted decl → AsksDeclared decl script
        → actors decl ≤ most_actors → (h : List Entry) (open_inputs : List Bool)
        → RunsWithFalls (IsLawfulWithFalls decl) C.fits decl script h open_inputs → AllRisePlanned decl h
        → RiseWithOwn decl h → Due decl h }
{}

/// Where a script asks for what is declared and records are kept, what rises names
/// epochs with plans: no actor writes a record of another.
#[tactic(auto, using(crate::proofs::KeptPlanned::what_rises_is_planned_where_records_are_kept))]
pub fn what_rises_is_planned_where_records_are_kept<C: ConductWithFalls>()
    ensures { (decl : Declaration) (script : Script) → IsAccepted decl → AsksDeclared decl script
        → (h : List Entry) (open_inputs : List Bool)
        → RunsWithFalls (IsLawfulWithFalls decl) C.fits decl script h open_inputs → Kept h
        → AllRisePlanned decl h }
{}

/// So all is due in every run with falls in which records are kept.
#[tactic(auto, using(crate::proofs::KeptPlanned::runs_with_falls_are_due_where_records_are_kept))]
pub fn runs_with_falls_are_due_where_records_are_kept<C: ConductWithFalls>()
    ensures { (decl : Declaration) (script : Script) → IsAccepted decl → AsksDeclared decl script
        → actors decl ≤ most_actors → (h : List Entry) (open_inputs : List Bool)
        → RunsWithFalls (IsLawfulWithFalls decl) C.fits decl script h open_inputs → Kept h → Due decl h }
{}
