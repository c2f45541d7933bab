//! Laws of runs with falls whose records are kept, each the contract of a function
//! with nothing to do.

ghost use Rattle.std.specs.Prelude.{◌≡◌, ℕ, Bool, true, List};
ghost use Rattle.qc_core.specs.Conduct.{IsLawfulWithFalls};
ghost use Rattle.qc_decl.specs.Accepted.{IsAccepted};
ghost use Rattle.qc_decl.specs.Actors.{client_actor, is_client};
ghost use Rattle.qc_decl.specs.declared.declaration.Declaration.{Declaration};
ghost use Rattle.qc_entry.specs.declared.record.Commit.{Commit};
ghost use Rattle.qc_list.specs.Members.{In};
ghost use Rattle.qc_msg.specs.declared.record.Record.TheVariants as journals;
ghost use Rattle.qc_msg.specs.Steps.{Entry};
ghost use Rattle.qc_promise.specs.Atomic.{Atomic, IsAfterSeen};
ghost use Rattle.qc_promise.specs.Committed.{committed};
ghost use Rattle.qc_promise.specs.Kept.{Kept};
ghost use Rattle.laws_reach.specs.Standing.{records_of};
ghost use Rattle.qc_script.specs.RunsWithFalls.{RunsWithFalls};
ghost use Rattle.qc_script.specs.Sound.{IsScriptFor};
ghost use Rattle.qc_script.specs.declared.script.Script.{Script};
ghost use Rattle.laws_turns.specs.EachRun.{OfEachKeptRun};

use qc_script::ConductWithFalls;

/// Each commit record in a client's journal is of a transaction of that client:
/// whichever life wrote it, or was writing it as the client fell.
pub fn records_stand_with_their_own_clients<C: ConductWithFalls>()
    ensures { (decl : Declaration) (script : Script) (h : List Entry) (open_inputs : List Bool) (a : ℕ) (c : Commit)
        → IsAccepted decl → IsScriptFor decl script
        → RunsWithFalls (IsLawfulWithFalls decl) C.fits decl script h open_inputs → Kept h
        → is_client decl a ≡ true → In (journals.Commit c) (records_of h a) → client_actor decl c.tx.client ≡ a }
{}

/// Each committed transaction comes after all that its client had seen, through
/// falls: each transaction with a line in a grant that counted in its client's
/// life of then, or that the client was told committed, in any life, before it
/// began or until it ended, has a record with a smaller stamp. So it is too of
/// one whose record was being written as its client fell, where it stands.
pub fn records_follow_what_was_seen_through_falls<C: ConductWithFalls>()
    ensures { OfEachKeptRun C.fits (λ decl script h open_inputs. IsAfterSeen decl (committed decl h) h) }
{}

/// So every run with falls in which records are kept is atomic: its committed
/// transactions, each at a stamp of its own, are those of one copy of each
/// object, have just the replies that their clients got, come after all that
/// these had seen, and their clients know of them (Herlihy 1986, Weihl 1989).
pub fn runs_with_falls_are_atomic_where_records_are_kept<C: ConductWithFalls>()
    ensures { OfEachKeptRun C.fits (λ decl script h open_inputs. Atomic decl h) }
{}
