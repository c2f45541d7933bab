//! Laws of every run with falls whose records are kept, each the contract of a
//! function with nothing to do.

ghost use Rattle.std.specs.Prelude.{◌<◌, ℕ, []};
ghost use Rattle.laws_reach.specs.Ends.{AreCommitsTold};
ghost use Rattle.qc_decl.specs.Actors.{client_actor};
ghost use Rattle.qc_msg.specs.Deeds.{deeds};
ghost use Rattle.qc_promise.specs.Committed.{committed};
ghost use Rattle.qc_promise.specs.Told.{AreDealt, AreTold};
ghost use Rattle.laws_turns.specs.EachRun.{OfEachKeptRun};

use qc_script::ConductWithFalls;

/// In every such run a client tells of each commit record that it writes, in the
/// very post that writes it.
#[tactic(auto, using(crate::proofs::ToldRunLaws::commits_are_told_in_their_posts))]
pub fn commits_are_told_in_their_posts<C: ConductWithFalls>()
    ensures { OfEachKeptRun C.fits (λ decl script h open_inputs. (client : ℕ) → client < decl.clients
        → AreCommitsTold (deeds (client_actor decl client) [] h)) }
{}

/// Committed records are just the operations that their clients were told, from
/// the begin of the transaction to its end, through all falls and rises.
#[tactic(auto, using(crate::proofs::ToldRunLaws::dealt))]
pub fn records_are_what_was_told_through_falls<C: ConductWithFalls>()
    ensures { OfEachKeptRun C.fits (λ decl script h open_inputs. AreDealt decl (committed decl h) h) }
{}

/// A client is told Committed with a committed record's stamp; Aborted or Dropped
/// only of a transaction without a record; and of each committed record its client
/// was told Committed, or Unknown as it fell in writing it.
#[tactic(auto, using(crate::proofs::ToldRunLaws::told))]
pub fn clients_are_told_through_falls<C: ConductWithFalls>()
    ensures { OfEachKeptRun C.fits (λ decl script h open_inputs. AreTold decl (committed decl h) h) }
{}
