//! Laws of what is kept, each the contract of a function with nothing to do.

ghost use Rattle.std.specs.Prelude.{◌≡◌, ℕ, ◌+◌, ◌<◌, ◌≤◌, ◌==◌, Bool, true, false, List, [], ◌∷◌, ◌++◌, Some, None};
ghost use Rattle.std.specs.Prelude.{length, option_map, slice_get};
ghost use Rattle.std.specs.List.{AllByRecursion as Every};
ghost use Rattle.std.specs.Option.{IfSome, IsSome};
ghost use Rattle.qc_decl.specs.Actors.{actors, administrator};
ghost use Rattle.qc_decl.specs.declared.declaration.Declaration.{Declaration};
ghost use Rattle.qc_msg.specs.Deeds.{WasSentTo, mail};
ghost use Rattle.qc_msg.specs.Steps.{Entry, by, marked, posted, step_of};
ghost use Rattle.qc_msg.specs.declared.message.Envelope.{Envelope};
ghost use Rattle.qc_msg.specs.declared.message.Message.{Message};
ghost use Rattle.qc_msg.specs.declared.reply.Reply.{Reply};
ghost use Rattle.qc_msg.specs.declared.step.Control.{Control};
ghost use Rattle.qc_msg.specs.declared.step.Input.{Input};
ghost use Rattle.qc_msg.specs.declared.step.Input.TheVariants.{Got};
ghost use Rattle.qc_msg.specs.declared.step.Step.{Step};
ghost use Rattle.qc_msg.specs.declared.step.Step.TheVariants.{Phase, Sent, Told};
ghost use Rattle.qc_msg.specs.declared.turn.Posting.{Posting};
ghost use Rattle.qc_msg.specs.declared.turn.Turn.{Turn};
ghost use Rattle.qc_script.specs.Inbox.{count_of, inbox, is_up};
ghost use Rattle.qc_script.specs.Ready.{controller_step, controls_left, ready};
ghost use Rattle.qc_script.specs.Sound.{IsScriptFor};
ghost use Rattle.qc_script.specs.declared.script.PhaseLines.{PhaseLines};
ghost use Rattle.qc_script.specs.declared.script.Script.{Script};
ghost use Rattle.qc_mailbox.specs.Inboxes.{Inboxes};
ghost use Rattle.qc_mailbox.specs.Inputs.{IsWithin, input_in, input_of};
ghost use Rattle.qc_mailbox.specs.KeptInboxes.{IsKept, MayWrite};
ghost use Rattle.qc_mailbox.specs.Picks.{comes_before, is_held, picked, rank_at};
ghost use Rattle.qc_mailbox.specs.PicksKept.{picked_in};
ghost use Rattle.qc_mailbox.specs.Rooms.{after_control, after_phase, after_take, after_turn, empty_inboxes, tray_at};
ghost use Rattle.qc_mailbox.specs.declared.input.Rank.{Rank};
ghost use Rattle.qc_link.specs.Limits.{most_actors};

/// Before the first step, nothing waits for anybody, and everybody is up.
pub fn new_trays_are_kept()
    ensures { (script : Script) → IsKept script [] (empty_inboxes script) }
{}

/// What is ready is what the trays show.
pub fn trays_show_what_is_ready()
    ensures { (decl : Declaration) (script : Script) (h : List Entry) (kept : Inboxes) (a : ℕ)
        → IsKept script h kept → a < most_actors → option_map input_of (ready decl script a h) ≡ input_in decl a kept }
{}

/// An actor's input keeps the trays.
pub fn inputs_keep_trays()
    ensures { (decl : Declaration) (script : Script) (h : List Entry) (kept : Inboxes) (a : ℕ) (given : Input)
        → IsKept script h kept → a < most_actors → ready decl script a h ≡ Some given
        → IsKept script (h ++ marked a (step_of given) ∷ []) (after_take kept a) }
{}

/// So does an actor's turn, whose messages have the next numbers. Who writes a
/// record is up.
pub fn turns_keep_trays()
    ensures { (script : Script) (h : List Entry) (kept : Inboxes) (a : ℕ) (turn : Turn)
        → IsKept script h kept → a < most_actors → Every (λ (p : Posting). p.to < most_actors) turn.sends
        → MayWrite (is_up kept.up a) turn.write
        → IsKept script (h ++ by a (posted (length (mail h)) turn)) (after_turn kept a turn) }
{}

/// So does the next phase.
pub fn phases_keep_trays()
    ensures { (script : Script) (h : List Entry) (kept : Inboxes) (n : ℕ) (phase : PhaseLines) (controller : ℕ)
        → IsKept script h kept → slice_get script.phases n ≡ Some phase
        → IsKept script (h ++ marked controller (Phase (n + 1)) ∷ []) (after_phase kept phase) }
{}

/// So does a control line that is the controller's own: it cuts, heals or arms.
pub fn controls_keep_trays()
    ensures { (script : Script) (h : List Entry) (kept : Inboxes) (line : Control) (step : Step) (controller : ℕ)
        → IsKept script h kept → controller_step line ≡ Some step
        → IsKept script (h ++ marked controller step ∷ []) (after_control kept line) }
{}

/// The trays tell which actor comes next.
pub fn picks_are_made_by_trays()
    ensures { (decl : Declaration) (script : Script) (held : List Bool) (h : List Entry) (kept : Inboxes)
        → IsKept script h kept → actors decl ≤ most_actors → picked_in decl held kept ≡ picked decl script held h }
{}

/// None comes next exactly where nothing is ready for any actor that isn't held,
/// and something is ready for the one that does.
pub fn who_comes_next_has_something_ready()
    ensures none { (decl : Declaration) (script : Script) (held : List Bool) (h : List Entry)
        → picked decl script held h ≡ None
        → (a : ℕ) → a < actors decl → is_held held a ≡ false → ready decl script a h ≡ None }
    ensures only { (decl : Declaration) (script : Script) (held : List Bool) (h : List Entry)
        → ((a : ℕ) → a < actors decl → is_held held a ≡ false → ready decl script a h ≡ None)
        → picked decl script held h ≡ None }
    ensures some { (decl : Declaration) (script : Script) (held : List Bool) (h : List Entry) (a : ℕ)
        → picked decl script held h ≡ Some a
        → (a < actors decl) × (is_held held a ≡ false) × IsSome (ready decl script a h) }
{}

/// Who comes next has the best rank of all, and the lowest number of those that
/// have it.
pub fn who_comes_next_is_first()
    ensures first { (decl : Declaration) (script : Script) (held : List Bool) (h : List Entry)
        (a b : ℕ) (best rank : Rank)
        → picked decl script held h ≡ Some a → rank_at decl script held h a ≡ Some best
        → b < actors decl → rank_at decl script held h b ≡ Some rank → comes_before rank best ≡ false }
    ensures lowest { (decl : Declaration) (script : Script) (held : List Bool) (h : List Entry)
        (a b : ℕ) (best rank : Rank)
        → picked decl script held h ≡ Some a → rank_at decl script held h a ≡ Some best
        → b < a → rank_at decl script held h b ≡ Some rank → comes_before best rank ≡ true }
{}

/// What is ready for an actor and is a message was sent to it, and is found
/// under its number.
pub fn ready_messages_were_sent()
    ensures { (decl : Declaration) (script : Script) (h : List Entry) (kept : Inboxes) (a : ℕ) (given : Input)
        → IsKept script h kept → ready decl script a h ≡ Some given → WasSentTo a (mail h) given }
{}

/// Who sent it is an actor.
pub fn ready_messages_have_senders()
    ensures { (decl : Declaration) (script : Script) (h : List Entry) (kept : Inboxes) (a : ℕ) (e : Envelope)
        → IsKept script h kept → ready decl script a h ≡ Some (Got e) → e.from < most_actors }
{}

/// Each copy that waits was sent to the actor too.
pub fn waiting_messages_were_sent()
    ensures { (script : Script) (h : List Entry) (kept : Inboxes) (a : ℕ) → IsKept script h kept
        → Every (λ (e : Envelope). WasSentTo a (mail h) (Got e)) (inbox script a h).copies }
{}

/// The control lines left are those of the history.
pub fn trays_show_controls()
    ensures { (script : Script) (h : List Entry) (kept : Inboxes)
        → IsKept script h kept → kept.controls ≡ controls_left script h }
{}

/// What the calls require holds: the first control line left names actors where
/// the script is sound, and an actor's calls are no more than the steps.
pub fn trays_are_in_range()
    ensures control { (decl : Declaration) (script : Script) (h : List Entry) (kept : Inboxes)
        → IsKept script h kept → IsScriptFor decl script → administrator decl < most_actors
        → IfSome (slice_get kept.controls 0) IsWithin }
    ensures calls { (script : Script) (h : List Entry) (kept : Inboxes) (a : ℕ)
        → IsKept script h kept → a < most_actors → (tray_at kept.trays a).calls ≤ length h }
{}

/// A message changes the inboxes of its sender and its receiver alone; an input,
/// and a reply, that of its actor.
pub fn steps_leave_other_inboxes()
    ensures sends { (script : Script) (h : List Entry) (a from n to : ℕ) (message : Message)
        → (from == a) ≡ false → (to == a) ≡ false
        → inbox script a (h ++ marked from (Sent n to message) ∷ []) ≡ inbox script a h }
    ensures inputs { (script : Script) (h : List Entry) (a b : ℕ) (given : Input) → (b == a) ≡ false
        → inbox script a (h ++ marked b (step_of given) ∷ []) ≡ inbox script a h }
    ensures replies { (script : Script) (h : List Entry) (a b : ℕ) (reply : Reply) → (b == a) ≡ false
        → inbox script a (h ++ marked b (Told reply) ∷ []) ≡ inbox script a h }
{}

/// All inboxes have the same cuts and control lines, and a message is counted
/// alike by its sender and its receiver.
pub fn inboxes_agree()
    ensures cuts { (script : Script) (h : List Entry) (a b : ℕ) → a < most_actors → b < most_actors
        → (inbox script a h).cuts ≡ (inbox script b h).cuts }
    ensures controls { (script : Script) (h : List Entry) (a b : ℕ) → a < most_actors → b < most_actors
        → (inbox script a h).controls ≡ (inbox script b h).controls }
    ensures counts { (script : Script) (h : List Entry) (a b : ℕ) → a < most_actors → b < most_actors
        → count_of (inbox script a h).from_each b ≡ count_of (inbox script b h).to_each a }
{}
