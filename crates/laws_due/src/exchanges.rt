//! What answered commands say, and exchanges that are refused: laws as contracts
//! of functions with nothing to do.
//!
//! Which reply is right for a command isn't said here: so two replies that are
//! exchanged in place aren't refused. What is due says that, reply by reply.

ghost use Rattle.std.specs.Prelude.{◌≡◌, ◌++◌, true, false, Option, None, List, [], ◌∷◌, length};
ghost use Rattle.std.specs.List.{filter_map};
ghost use Rattle.qc_core.specs.Acts.{is_running};
ghost use Rattle.laws_due.specs.Order.{AreInOrder};
ghost use Rattle.laws_turns.specs.Exchanges.{AreAnswered, exchanges};
ghost use Rattle.laws_turns.specs.Whole.{call_in, reply_in};
ghost use Rattle.qc_msg.specs.Deeds.{Deed, Falls, Rises, Takes, Tells};
ghost use Rattle.qc_msg.specs.declared.record.Record.{Record};
ghost use Rattle.qc_msg.specs.declared.reply.Reply.{Reply};
ghost use Rattle.qc_msg.specs.declared.reply.Reply.TheVariants.{Down};
ghost use Rattle.qc_msg.specs.declared.step.Command.{Command};
ghost use Rattle.qc_msg.specs.declared.step.Fall.{Fall};
ghost use Rattle.qc_msg.specs.declared.step.Input.TheVariants.{Called};

/// Commands that are answered in some deeds are just those that were called in
/// them, and there commands and replies are in order, and in the end none runs.
#[tactic(auto, using(crate::proofs::Refused::answered_commands_were_called_in_order))]
pub fn answered_commands_were_called_in_order()
    ensures { (asked : List Command) (ds : List Deed) → AreAnswered asked (exchanges ds)
        → (filter_map call_in ds ≡ asked) × (AreInOrder false ds × (is_running ds ≡ false)) }
{}

/// So there are as many replies as commands.
#[tactic(auto, using(crate::proofs::Refused::answered_commands_have_a_reply_each))]
pub fn answered_commands_have_a_reply_each()
    ensures { (asked : List Command) (ds : List Deed) → AreAnswered asked (exchanges ds)
        → length (filter_map reply_in ds) ≡ length asked }
{}

/// The other way round, commands in order of which none runs in the end are
/// answered.
#[tactic(auto, using(crate::proofs::Refused::commands_in_order_are_answered))]
pub fn commands_in_order_are_answered()
    ensures { (ds : List Deed) → AreInOrder false ds → is_running ds ≡ false
        → AreAnswered (filter_map call_in ds) (exchanges ds) }
{}

/// A reply too few: nothing is answered whose last command was told none.
#[tactic(auto, using(crate::proofs::Refused::missing_replies_are_refused))]
pub fn missing_replies_are_refused()
    ensures { (asked : List Command) (ds : List Deed) (command : Command)
        → AreAnswered asked (exchanges (ds ++ Takes (Called command) ∷ [])) → ⊥ }
{}

/// A reply too many: one that is told where no command runs.
#[tactic(auto, using(crate::proofs::Refused::needless_replies_are_refused))]
pub fn needless_replies_are_refused()
    ensures { (asked : List Command) (ds rest : List Deed) (reply : Reply) → is_running ds ≡ false
        → AreAnswered asked (exchanges (ds ++ Tells reply ∷ rest)) → ⊥ }
{}

/// A client that falls while a command runs: whatever it is told after that.
#[tactic(auto, using(crate::proofs::Refused::falls_before_a_reply_are_refused))]
pub fn falls_before_a_reply_are_refused()
    ensures { (asked : List Command) (ds rest : List Deed) (cause : Fall) (pending : Option Record)
        → is_running ds ≡ true → AreAnswered asked (exchanges (ds ++ Falls cause pending ∷ rest)) → ⊥ }
{}

/// Other calls than those asked for: one that was never called, and one that was
/// called once more.
#[tactic(auto, using(crate::proofs::Refused::never_called, crate::proofs::Refused::called_twice))]
pub fn other_calls_are_refused()
    ensures never { (asked : List Command) (command : Command) (ds : List Deed) → filter_map call_in ds ≡ asked
        → AreAnswered (asked ++ command ∷ []) (exchanges ds) → ⊥ }
    ensures more { (asked : List Command) (command : Command) (ds : List Deed)
        → filter_map call_in ds ≡ asked ++ command ∷ [] → AreAnswered asked (exchanges ds) → ⊥ }
{}

/// A right one: a client is told a reply, falls, is told that it is down, and
/// rises.
pub fn falls_between_commands_are_taken()
    ensures { (first second : Command) (reply : Reply) (cause : Fall) (records : List Record)
        → AreAnswered (first ∷ second ∷ []) (exchanges (Takes (Called first) ∷ Tells reply ∷ Falls cause None
        ∷ Takes (Called second) ∷ Tells Down ∷ Rises records ∷ [])) }
{}
