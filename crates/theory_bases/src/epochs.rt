//! The epochs that lines of logs belong to, in every disciplined run.

ghost use Rattle.std.specs.Prelude.{◌≡◌, ◌<◌, ◌≤◌, ◌⊎◌, ℕ, suc, List};
ghost use Rattle.qc_entry.specs.declared.line.Line.{Line};
ghost use Rattle.qc_decl.specs.declared.declaration.Declaration.{Declaration};
ghost use Rattle.qc_decl.specs.Accepted.{IsAccepted};
ghost use Rattle.qc_list.specs.Members.{In};
ghost use Rattle.theory_machine.specs.Site.{epoch_from, site_after};
ghost use Rattle.theory_machine.specs.State.{Decision, Snapshot};
ghost use Rattle.theory_machine.specs.Acts.{Act, state};
ghost use Rattle.theory_machine.specs.Guards.{IsRun};
ghost use Rattle.theory_bases.specs.Discipline.{AreDisciplined};
ghost use Rattle.theory_bases.specs.Belongs.{BelongsNow};

/// A line of a site's log was written in the site's epoch, or is of the log
/// that this began with.
#[tactic(auto, using(crate::proofs::Above::logs_are_split_by_epochs))]
pub fn logs_are_split_by_epochs()
    ensures { (decl : Declaration) (accepted : IsAccepted decl) (acts : List Act) (run : IsRun decl acts)
        (disciplined : AreDisciplined decl acts) (site : ℕ) (l : Line)
        → In l (site_after ((state acts).deeds site)).volatile
        → BelongsNow decl (state acts) (epoch_from 1 ((state acts).deeds site)) l }
{}

/// A site that is in an epoch has the whole log that this began with.
pub fn sites_have_what_their_epoch_began_with()
    ensures { (decl : Declaration) (accepted : IsAccepted decl) (acts : List Act) (run : IsRun decl acts)
        (disciplined : AreDisciplined decl acts) (site : ℕ) (d : Decision) (m : Line) → In d (state acts).decided
        → epoch_from 1 ((state acts).deeds site) ≡ d.epoch → In m d.log
        → In m (site_after ((state acts).deeds site)).volatile }
{}

/// A line of a site's log that isn't of what its epoch began with was written
/// in the epoch, and is above each line of that.
pub fn later_lines_are_above()
    ensures { (decl : Declaration) (accepted : IsAccepted decl) (acts : List Act) (run : IsRun decl acts)
        (disciplined : AreDisciplined decl acts) (site : ℕ) (l m : Line) (d : Decision)
        → In l (site_after ((state acts).deeds site)).volatile → In d (state acts).decided
        → epoch_from 1 ((state acts).deeds site) ≡ d.epoch → In m d.log
        → In l d.log ⊎ (((state acts).epoch l.tx ≡ d.epoch) × (m.stamp.clock < l.stamp.clock)) }
{}

/// So are those of the log that the next epoch begins with.
pub fn next_logs_stand_behind()
    ensures { (decl : Declaration) (accepted : IsAccepted decl) (acts : List Act) (run : IsRun decl acts)
        (disciplined : AreDisciplined decl acts) (d e : Decision) (l m : Line) → In d (state acts).decided
        → In e (state acts).decided → e.epoch ≡ suc d.epoch → In l e.log → In m d.log
        → In l d.log ⊎ (((state acts).epoch l.tx ≡ d.epoch) × (m.stamp.clock < l.stamp.clock)) }
{}

/// That log has all of what this epoch began with, where it was made from any
/// snapshot.
#[tactic(auto, using(crate::proofs::Above::next_logs_keep_what_was))]
pub fn next_logs_keep_what_was()
    ensures { (decl : Declaration) (accepted : IsAccepted decl) (acts : List Act) (run : IsRun decl acts)
        (disciplined : AreDisciplined decl acts) (d e : Decision) (s : Snapshot) (m : Line)
        → In d (state acts).decided → In e (state acts).decided → e.epoch ≡ suc d.epoch → In s e.snapshots
        → In m d.log → In m e.log }
{}

/// The log that an epoch begins with was written in earlier epochs, and the
/// epoch's clock has passed its stamps.
#[tactic(auto, using(crate::proofs::Above::decided_logs_are_of_earlier_epochs))]
pub fn decided_logs_are_of_earlier_epochs()
    ensures { (decl : Declaration) (accepted : IsAccepted decl) (acts : List Act) (run : IsRun decl acts)
        (disciplined : AreDisciplined decl acts) (d : Decision) (l : Line) → In d (state acts).decided → In l d.log
        → ((state acts).epoch l.tx < d.epoch) × (l.stamp.clock ≤ d.clock) }
{}

/// An epoch is decided once.
#[tactic(auto, using(crate::proofs::Above::epochs_are_decided_once))]
pub fn epochs_are_decided_once()
    ensures { (decl : Declaration) (accepted : IsAccepted decl) (acts : List Act) (run : IsRun decl acts)
        (disciplined : AreDisciplined decl acts) (d e : Decision) → In d (state acts).decided
        → In e (state acts).decided → d.epoch ≡ e.epoch → d ≡ e }
{}
