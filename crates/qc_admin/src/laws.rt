//! Laws of the administrator, each the contract of a function with nothing to
//! do.

ghost use Rattle.std.specs.Prelude.{◌≡◌, ℕ, List};
ghost use Rattle.qc_decl.specs.Accepted.{IsAccepted};
ghost use Rattle.qc_decl.specs.declared.declaration.Declaration.{Declaration};
ghost use Rattle.qc_epoch.specs.Admin.{Admin as AdminState, new_admin};
ghost use Rattle.qc_epoch.specs.Conduct.{admin_takes};
ghost use Rattle.qc_msg.specs.declared.record.Record.{Record as Written};
ghost use Rattle.qc_msg.specs.declared.step.Input.{Input};
ghost use Rattle.qc_recover.specs.Admins.{admin_of};
ghost use Rattle.qc_admin.specs.Fits.{AdminFits, GivenFits, GoesToActors};
ghost use Rattle.qc_admin.specs.Holds.{AdminHolds, IsNumberedAtOnce};
ghost use Rattle.qc_admin.specs.Sent.{sent};

/// What his calls rely on holds of him from the first, as he rises, and after
/// each input and the numbers of its messages.
pub fn administrators_fit()
    ensures new { AdminFits new_admin }
    ensures risen { (records : List Written) → AdminFits (admin_of records) }
    ensures takes { (decl : Declaration) (m : AdminState) (input : Input) → IsAccepted decl → AdminFits m
        → GivenFits input → AdminFits (admin_takes decl m input).admin }
    ensures sent { (m : AdminState) (first : ℕ) → AdminFits m → AdminFits (sent m first) }
{}

/// What he sends goes to sites and clients: at most one message to each site, or
/// one for each question that is asked.
pub fn turns_go_to_actors()
    ensures { (decl : Declaration) (m : AdminState) (input : Input) → IsAccepted decl → AdminFits m
        → GivenFits input → GoesToActors (admin_takes decl m input).turn }
{}

/// Between two inputs each open request has its number (`AdminHolds`). Then one
/// call with the number of the next message leaves him as he is after each
/// message of the turn got its own, and it holds again.
pub fn turns_are_numbered_at_once()
    ensures new { (decl : Declaration) → AdminHolds decl new_admin }
    ensures risen { (decl : Declaration) (records : List Written) → AdminHolds decl (admin_of records) }
    ensures takes { (decl : Declaration) (m : AdminState) (input : Input) → IsAccepted decl → AdminHolds decl m
        → IsNumberedAtOnce decl (admin_takes decl m input) }
{}
