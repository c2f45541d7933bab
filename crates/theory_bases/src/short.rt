//! Short sites: beside the machine's, and in disciplined runs.

ghost use Rattle.std.specs.Prelude.{◌≡◌, ℕ, List, []};
ghost use Rattle.qc_entry.specs.declared.line.Line.{Line};
ghost use Rattle.qc_decl.specs.declared.declaration.Declaration.{Declaration};
ghost use Rattle.qc_decl.specs.Accepted.{IsAccepted};
ghost use Rattle.qc_list.specs.Members.{In};
ghost use Rattle.theory_machine.specs.Site.{Deed, epoch_from, site_after};
ghost use Rattle.theory_machine.specs.State.{Decision};
ghost use Rattle.theory_machine.specs.Acts.{Act, state};
ghost use Rattle.theory_machine.specs.Guards.{IsRun};
ghost use Rattle.theory_bases.specs.Bases.{IsAbove};
ghost use Rattle.theory_bases.specs.Discipline.{AreDisciplined};
ghost use Rattle.theory_bases.specs.Short.{AreShortDeeds, StandsFor, base_of, short_site_after};

/// A site that keeps only the lines since its epoch began, and is sent views
/// without lines that it has, stands for the machine's: with what its epoch
/// began with it has the same lines, volatile and stable, and it holds and
/// promises the same.
pub fn short_sites_stand_for_whole_ones()
    ensures { (whole short : List Deed) → AreShortDeeds whole short
        → StandsFor (base_of whole) (site_after whole) (short_site_after short) }
{}

/// The base of a site is what its epoch began with: the log of the epoch's
/// decision, and nothing in the first epoch.
pub fn bases_are_what_epochs_began_with()
    ensures decided { (decl : Declaration) (accepted : IsAccepted decl) (acts : List Act) (run : IsRun decl acts)
        (disciplined : AreDisciplined decl acts) (site : ℕ) (d : Decision) → In d (state acts).decided
        → epoch_from 1 ((state acts).deeds site) ≡ d.epoch → base_of ((state acts).deeds site) ≡ d.log }
    ensures first { (decl : Declaration) (acts : List Act) (run : IsRun decl acts) (site : ℕ)
        → epoch_from 1 ((state acts).deeds site) ≡ 1 → base_of ((state acts).deeds site) ≡ [] }
{}

/// Where a short site keeps no line of its base, all that it keeps is above the
/// base; so its state may be reached from that of the base.
pub fn short_logs_are_above_their_bases()
    ensures { (decl : Declaration) (accepted : IsAccepted decl) (acts : List Act) (run : IsRun decl acts)
        (disciplined : AreDisciplined decl acts) (site : ℕ) (short : List Deed)
        → AreShortDeeds ((state acts).deeds site) short
        → ((l : Line) → In l (short_site_after short).volatile → In l (base_of ((state acts).deeds site)) → ⊥)
        → IsAbove (base_of ((state acts).deeds site)) (short_site_after short).volatile }
{}
