//! Records fit their actors in every run with falls whose records are kept: laws,
//! each the contract of a function with nothing to do.

ghost use Rattle.std.specs.Prelude.{◌≡◌, ◌↔◌, ◌<◌, ℕ, true, List, [], Some, length, option_to_list, slice_get};
ghost use Rattle.laws_bounds.specs.Fitting.{AllFit, AllRiseFit, JournalFits};
ghost use Rattle.qc_core.specs.Conduct.{IsLawfulWithFalls};
ghost use Rattle.qc_core.specs.Journals.{journal_after};
ghost use Rattle.qc_decl.specs.Limits.{most_steps};
ghost use Rattle.qc_decl.specs.declared.declaration.Declaration.{Declaration};
ghost use Rattle.qc_fit.specs.Fits.{fits};
ghost use Rattle.qc_msg.specs.Deeds.{deeds};
ghost use Rattle.qc_msg.specs.declared.record.Record.{Record};
ghost use Rattle.qc_msg.specs.declared.turn.Turn.{Turn};
ghost use Rattle.laws_turns.specs.EachRun.{OfEachKeptRun};

use qc_script::ConductWithFalls;

/// That all records of a journal fit is that each does, behind as many others as
/// its place tells.
#[tactic(auto, using(crate::proofs::Places::records_fit_at_their_places))]
pub fn records_fit_at_their_places()
    ensures { (decl : Declaration) (a : ℕ) (records : List Record) → AllFit decl a 0 records
        ↔ ((place : ℕ) (r : Record) → slice_get records place ≡ Some r → fits decl a place r ≡ true) }
{}

/// Below the limit of steps, where records are kept, each record of an actor's
/// journal fits the actor at its place, and so does the one that was being
/// written as it fell, behind them: who writes it, what is declared in it, its
/// clocks, and how many records are before it.
#[tactic(auto, using(crate::proofs::RecordsFit::journal_fits))]
pub fn journals_fit_their_actors<C: ConductWithFalls>()
    ensures { OfEachKeptRun C.fits (λ decl script h open_inputs. length h < most_steps → (a : ℕ)
        → JournalFits decl a (journal_after (deeds a [] h))) }
{}

/// So the record of a lawful turn fits where it would be written.
#[tactic(auto, using(crate::proofs::RecordsFit::records_of_lawful_turns_fit))]
pub fn records_of_lawful_turns_fit<C: ConductWithFalls>()
    ensures { OfEachKeptRun C.fits (λ decl script h open_inputs. length h < most_steps → (a : ℕ) (turn : Turn)
        → IsLawfulWithFalls decl a (deeds a [] h) turn → AllFit decl a (length (journal_after (deeds a [] h)).records)
        (option_to_list turn.write)) }
{}

/// So each actor that rises does so with records that fit it, and its calls may
/// be made.
#[tactic(auto, using(crate::proofs::RecordsFit::what_rises_fits_where_records_are_kept))]
pub fn what_rises_fits_where_records_are_kept<C: ConductWithFalls>()
    ensures { OfEachKeptRun C.fits (λ decl script h open_inputs. length h < most_steps → AllRiseFit decl h) }
{}
