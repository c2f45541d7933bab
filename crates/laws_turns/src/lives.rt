//! Laws of runs with falls, each the contract of a function with nothing to do.

ghost use Rattle.std.specs.Prelude.{◌≡◌, ◌<◌, ◌≤◌, ℕ, Bool, List, [], Some, slice_get};
ghost use Rattle.std.specs.List.{AllByRecursion as Every};
ghost use Rattle.qc_core.specs.Conduct.{IsLawfulWithFalls};
ghost use Rattle.qc_decl.specs.Actors.{actors, is_site};
ghost use Rattle.qc_decl.specs.declared.declaration.Declaration.{Declaration};
ghost use Rattle.qc_mailbox.specs.Downs.{TellsWhereDown};
ghost use Rattle.laws_turns.specs.LivesIn.{LivesIn};
ghost use Rattle.laws_turns.specs.Others.{IsFall};
ghost use Rattle.qc_msg.specs.declared.message.Envelope.{Envelope};
ghost use Rattle.qc_msg.specs.Deeds.{deeds, mail};
ghost use Rattle.qc_msg.specs.Steps.{Entry};
ghost use Rattle.qc_promise.specs.Mail.{IsMailed};
ghost use Rattle.qc_promise.specs.Turns.{AreByTurns};
ghost use Rattle.qc_script.specs.RunsWithFalls.{RunsWithFalls};
ghost use Rattle.qc_script.specs.declared.script.Script.{Script};
ghost use Rattle.laws_turns.specs.EachRun.{OfEachRun};

use qc_script::ConductWithFalls;

/// Only a turn that has a record may end otherwise than written; and an actor
/// that is down has no record and no message to send.
#[tactic(auto, using(crate::proofs::Downs::who_is_down_only_tells))]
pub fn who_is_down_only_tells()
    ensures { (decl : Declaration) → TellsWhereDown (IsLawfulWithFalls decl) }
{}

/// In a run with falls each actor takes inputs and posts turns, falls and rises,
/// by its deeds; it has an open input just where the run says so. With which
/// records it rises isn't said here.
#[tactic(auto, using(crate::proofs::Lived::actors_live_in_runs_with_falls))]
pub fn actors_live_in_runs_with_falls<C: ConductWithFalls>()
    ensures { OfEachRun C.fits (λ decl script h open_inputs. (a : ℕ) (is_open : Bool)
        → slice_get open_inputs a ≡ Some is_open → LivesIn decl a h is_open) }
{}

/// In a run with falls each actor goes by turns: it posts for each input and as
/// it rises, its record first, it falls within a post only with its record, and
/// while it is down it only tells so.
#[tactic(auto, using(crate::proofs::ByMailWithFalls::actors_go_by_turns_with_falls))]
pub fn actors_go_by_turns_with_falls<C: ConductWithFalls>()
    ensures { OfEachRun C.fits (λ decl script h open_inputs. (a : ℕ) → a < actors decl
        → AreByTurns (is_site decl a) (deeds a [] h)) }
{}

/// Messages of a run with falls are numbered from 0 in the order in which they were
/// sent: a message's number is its place.
#[tactic(auto, using(qc_mailbox::proofs::FallMail::run_numbered))]
pub fn messages_are_numbered_in_order_with_falls<C: ConductWithFalls>()
    ensures { (decl : Declaration) (script : Script) (h : List Entry) (open_inputs : List Bool)
        → RunsWithFalls (IsLawfulWithFalls decl) C.fits decl script h open_inputs
        → (n : ℕ) (e : Envelope) → slice_get (mail h) n ≡ Some e → e.number ≡ n }
{}

/// Who is neither a site nor a client, as the administrator and the controller, only
/// falls in a run with falls, with nothing being written: it takes nothing, posts
/// nothing and doesn't rise.
#[tactic(auto, using(crate::proofs::Others::others_do_nothing_with_falls))]
pub fn others_do_nothing_with_falls<C: ConductWithFalls>()
    ensures { OfEachRun C.fits (λ decl script h open_inputs. (a : ℕ) → actors decl ≤ a → Every IsFall (deeds a [] h)) }
{}

/// In a run with falls messages reach those whom they were sent to.
#[tactic(auto, using(crate::proofs::ByMailWithFalls::messages_reach_their_receivers_with_falls))]
pub fn messages_reach_their_receivers_with_falls<C: ConductWithFalls>()
    ensures { OfEachRun C.fits (λ decl script h open_inputs. IsMailed [] h) }
{}
