//! Records are kept where damage is found only where a record doesn't fit: laws,
//! each the contract of a function with nothing to do.

ghost use Rattle.std.specs.Prelude.{◌≡◌, ◌≤◌, ◌<◌, ◌++◌, ℕ, Bool, true, List, [], length};
ghost use Rattle.qc_core.specs.Conduct.{IsLawfulWithFalls};
ghost use Rattle.qc_decl.specs.Accepted.{IsAccepted};
ghost use Rattle.qc_decl.specs.Actors.{actors};
ghost use Rattle.qc_decl.specs.Limits.{most_steps};
ghost use Rattle.qc_decl.specs.declared.declaration.Declaration.{Declaration};
ghost use Rattle.qc_msg.specs.Deeds.{own};
ghost use Rattle.qc_msg.specs.Steps.{Entry, by};
ghost use Rattle.qc_msg.specs.declared.step.Step.{Step};
ghost use Rattle.qc_msg.specs.declared.step.Step.TheVariants.{Damaged};
ghost use Rattle.qc_promise.specs.Kept.{Journal, Kept, journal_of};
ghost use Rattle.qc_promise.specs.Stores.{AreKept, IsOfOthers};
ghost use Rattle.qc_script.specs.RunsWithFalls.{RunsWithFalls};
ghost use Rattle.qc_script.specs.Sound.{IsScriptFor};
ghost use Rattle.qc_script.specs.declared.script.Script.{Script};
ghost use Rattle.laws_bounds.specs.Faults.{AreControlsBelow};
ghost use Rattle.laws_bounds.specs.Limits.{IsDamagedWithin, before_last};
ghost use Rattle.laws_bounds.specs.Misfits.{AreKeptOrMisfits, NextAreKeptOrMisfits};

use qc_script::ConductWithFalls;

/// A run with falls keeps all records where each actor rises with its journal, and
/// finds it damaged only where a record of it doesn't fit, and behind fewer steps
/// than the limit: for as long as records were kept, and below the limit, each
/// fits. So nothing is damaged.
pub fn records_are_kept_where_damage_is_a_misfit<C: ConductWithFalls>()
    ensures { (decl : Declaration) (script : Script) (n : ℕ) (h : List Entry) (open_inputs : List Bool)
        → IsAccepted decl → IsScriptFor decl script → actors decl ≤ n → AreControlsBelow n script
        → RunsWithFalls (IsLawfulWithFalls decl) C.fits decl script h open_inputs
        → IsDamagedWithin most_steps h → ((a : ℕ) → a < n → AreKeptOrMisfits decl a (own a h)) → Kept h }
{}

/// An actor's steps stay such that its records are kept but for misfits: at first,
/// over what others do, and over its own next steps that are such behind its
/// journal. Where its records are kept they are such.
pub fn misfits_go_on()
    ensures none { (decl : Declaration) (a : ℕ) → AreKeptOrMisfits decl a [] }
    ensures others { (decl : Declaration) (a : ℕ) (h more : List Entry) → IsOfOthers a more
        → AreKeptOrMisfits decl a (own a h) → AreKeptOrMisfits decl a (own a (h ++ more)) }
    ensures own { (decl : Declaration) (a : ℕ) (h : List Entry) (own_steps : List Step)
        → NextAreKeptOrMisfits decl a (journal_of (own a h)) own_steps
        → AreKeptOrMisfits decl a (own a h) → AreKeptOrMisfits decl a (own a (h ++ by a own_steps)) }
    ensures kept { (decl : Declaration) (a : ℕ) (own_steps : List Step) → AreKept own_steps
        → AreKeptOrMisfits decl a own_steps }
{}

/// Where fewer steps than a limit stand before the last step that begins
/// something, and what is found damaged begins something, damage is found within
/// the limit.
pub fn damage_is_found_within_the_limit()
    ensures { (begins : Step → Bool) (most : ℕ) (h : List Entry)
        → ((offset : ℕ) → begins (Damaged offset) ≡ true) → length (before_last begins h) < most
        → IsDamagedWithin most h }
{}
