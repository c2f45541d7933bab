//! What is kept of the inboxes of a run with falls: the contract of a function
//! with nothing to do.

ghost use Rattle.std.specs.Prelude.{Bool, List};
ghost use Rattle.laws_bounds.specs.Fitting.{AllRiseFit};
ghost use Rattle.qc_core.specs.Conduct.{IsLawfulWithFalls};
ghost use Rattle.qc_decl.specs.Accepted.{IsAccepted};
ghost use Rattle.qc_decl.specs.declared.declaration.Declaration.{Declaration};
ghost use Rattle.qc_mailbox.specs.Inboxes.{Inboxes};
ghost use Rattle.qc_mailbox.specs.KeptInboxes.{IsKept};
ghost use Rattle.qc_msg.specs.Steps.{Entry};
ghost use Rattle.qc_script.specs.RunsWithFalls.{RunsWithFalls};
ghost use Rattle.qc_script.specs.Sound.{IsScriptFor};
ghost use Rattle.qc_script.specs.declared.script.Script.{Script};

use qc_script::ConductWithFalls;

/// Each run with falls has trays that show it, and counts, cuts and control
/// lines: begun with empty ones, each event changes them, whatever fell. What
/// rises fits its actor, so that a rising turn goes to actors alone.
pub fn runs_with_falls_have_trays<C: ConductWithFalls>()
    ensures { (decl : Declaration) (script : Script) (h : List Entry) (open_inputs : List Bool)
        → IsAccepted decl → IsScriptFor decl script
        → RunsWithFalls (IsLawfulWithFalls decl) C.fits decl script h open_inputs → AllRiseFit decl h
        → (kept : Inboxes) × IsKept script h kept }
{}
