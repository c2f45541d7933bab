//! Laws of what is kept through falls, each the contract of a function with
//! nothing to do: falls, rises, and turns whose record isn't written keep it.

ghost use Rattle.std.specs.Prelude.{◌≡◌, ℕ, ◌<◌, ◌≤◌, Bool, true, false, List, [], ◌∷◌, ◌++◌, Option, length};
ghost use Rattle.std.specs.List.{AllByRecursion as Every};
ghost use Rattle.qc_decl.specs.Actors.{actors};
ghost use Rattle.qc_decl.specs.declared.declaration.Declaration.{Declaration};
ghost use Rattle.qc_mailbox.specs.Downs.{TellsWhereDown};
ghost use Rattle.qc_mailbox.specs.Inboxes.{Inboxes};
ghost use Rattle.qc_mailbox.specs.KeptInboxes.{IsKept, MayPost};
ghost use Rattle.qc_mailbox.specs.Rooms.{after_fall_by_line, after_post_as, after_rising_as, with_control_gone};
ghost use Rattle.qc_link.specs.Limits.{most_actors};
ghost use Rattle.qc_msg.specs.Deeds.{deeds, mail};
ghost use Rattle.qc_msg.specs.Steps.{Entry, HasRecord, by, marked, posted_as, sends_as};
ghost use Rattle.qc_msg.specs.declared.record.Record.{Record};
ghost use Rattle.qc_msg.specs.declared.step.Fall.{Fall};
ghost use Rattle.qc_msg.specs.declared.step.Step.TheVariants.{Damaged, Fell, Rose};
ghost use Rattle.qc_msg.specs.declared.turn.Posting.{Posting};
ghost use Rattle.qc_msg.specs.declared.turn.Turn.{Turn};
ghost use Rattle.qc_script.specs.Inbox.{inbox, is_by_line, is_up};
ghost use Rattle.qc_script.specs.RunsWithFalls.{RunsWithFalls};
ghost use Rattle.qc_script.specs.declared.script.Script.{Script};

use qc_script::ConductWithFalls;

/// What is kept knows who is up, as each inbox does.
#[tactic(auto, using(crate::proofs::FallTrays::trays_know_who_is_up))]
pub fn trays_know_who_is_up()
    ensures { (script : Script) (h : List Entry) (kept : Inboxes) (a : ℕ)
        → IsKept script h kept → a < most_actors → (inbox script a h).up ≡ kept.up }
{}

/// A post keeps the trays, whatever became of its record: where that isn't
/// written, its actor falls behind what it then sends and tells.
pub fn posts_keep_trays()
    ensures { (script : Script) (h : List Entry) (kept : Inboxes) (a : ℕ) (turn : Turn)
        → IsKept script h kept → a < most_actors
        → Every (λ (p : Posting). p.to < most_actors) (sends_as turn.append turn)
        → MayPost (is_up kept.up a) turn.append turn.write
        → IsKept script (h ++ by a (posted_as turn.append (length (mail h)) turn))
        (after_post_as turn.append kept a turn) }
{}

/// In a run, who posts a lawful turn may do so: it is up, or its turn has no
/// record.
#[tactic(auto, using(crate::proofs::FallLaws::lawful_posts_are_of_who_is_up))]
pub fn lawful_posts_are_of_who_is_up<C: ConductWithFalls>()
    ensures { (decl : Declaration) (script : Script) (h : List Entry) (open_inputs : List Bool) (kept : Inboxes)
        → actors decl ≤ most_actors → TellsWhereDown C.lawful
        → RunsWithFalls C.lawful C.fits decl script h open_inputs → IsKept script h kept
        → (a : ℕ) (turn : Turn) → a < most_actors → C.lawful a (deeds a [] h) turn
        → MayPost (is_up kept.up a) turn.append turn.write }
{}

/// A fall that the next control line calls for keeps the trays: the line crashes
/// the actor, or restarts it and its journal isn't opened.
pub fn falls_by_lines_keep_trays()
    ensures { (script : Script) (h : List Entry) (kept : Inboxes) (a : ℕ) (cause : Fall) (pending : Option Record)
        → IsKept script h kept → a < most_actors → is_by_line (is_up kept.up a) cause ≡ true
        → IsKept script (h ++ marked a (Fell cause pending) ∷ []) (after_fall_by_line kept a) }
{}

/// So does a rise with its turn, also where the record of the rise isn't written
/// and the actor rose in vain.
pub fn rises_keep_trays()
    ensures { (script : Script) (h : List Entry) (kept : Inboxes) (a : ℕ) (records : List Record) (turn : Turn)
        → IsKept script h kept → a < most_actors → is_up kept.up a ≡ false → HasRecord turn.write
        → Every (λ (p : Posting). p.to < most_actors) (sends_as turn.append turn)
        → IsKept script (h ++ by a (Rose records ∷ posted_as turn.append (length (mail h)) turn))
        (after_rising_as turn.append kept a turn) }
{}

/// So does a restart whose journal is damaged: the actor stays down.
pub fn damaged_journals_keep_trays()
    ensures { (script : Script) (h : List Entry) (kept : Inboxes) (a offset : ℕ)
        → IsKept script h kept → IsKept script (h ++ marked a (Damaged offset) ∷ []) (with_control_gone kept) }
{}
