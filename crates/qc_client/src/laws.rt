//! Laws of a client, each the contract of a function with nothing to do.
//!
//! A client takes inputs one after another, and each input's turn gets the
//! numbers of its messages. A command comes only once the last one has its
//! reply (`AreReady`): all else holds of any inputs whatever.

ghost use Rattle.std.specs.Prelude.{◌≡◌, ℕ, true, false, List, [], ◌∷◌, Option, Some, None, AllPairs};
ghost use Rattle.std.specs.List.{AllByRecursion as Every};
ghost use Rattle.qc_commit.specs.declared.desk.Known.TheVariants as knowns;
ghost use Rattle.qc_commit.specs.Desk.{known};
ghost use Rattle.qc_decl.specs.declared.declaration.Declaration.{Declaration};
ghost use Rattle.qc_entry.specs.declared.line.Line.{Line};
ghost use Rattle.qc_entry.specs.declared.record.Commit.{Commit};
ghost use Rattle.qc_msg.specs.declared.message.Answer.TheVariants.{Answered};
ghost use Rattle.qc_msg.specs.declared.message.Message.{Message};
ghost use Rattle.qc_msg.specs.declared.message.Message.TheVariants as messages;
ghost use Rattle.qc_msg.specs.declared.message.Outcome.{Outcome};
ghost use Rattle.qc_msg.specs.declared.message.Outcome.TheVariants as outcomes;
ghost use Rattle.qc_msg.specs.declared.message.Want.{Want};
ghost use Rattle.qc_msg.specs.declared.step.Command.TheVariants as commands;
ghost use Rattle.qc_msg.specs.declared.step.Input.{Input};
ghost use Rattle.qc_msg.specs.declared.turn.Posting.{Posting};
ghost use Rattle.qc_msg.specs.Turns.{quiet, sending};
ghost use Rattle.qc_msg.specs.Payloads.{start_with};
ghost use Rattle.qc_stamp.specs.declared.stamp.Stamp.{Stamp};
ghost use Rattle.qc_stamp.specs.declared.stamp.TxId.{TxId};
ghost use Rattle.qc_stamp.specs.Order.{same_tx};
ghost use Rattle.qc_client.specs.declared.client.Client.{Client};
ghost use Rattle.qc_client.specs.Client.{is_begun, moved, new_client, outcome_of};
ghost use Rattle.qc_client.specs.Conduct.{called, client_takes, heard};
ghost use Rattle.qc_client.specs.Inputs.{AreReady, NumberedInput, TellsOutcome, after_inputs, name_of};

/// An Inquiry and an Ask are answered by how the transaction stands: Committed
/// with its record's stamp, Active while it is begun, Aborted otherwise. A
/// committed one stays so, whatever the client takes.
pub fn outcomes_are_told()
    ensures inquiry { (decl : Declaration) (c : Client) (from number : ℕ) (tx : TxId)
        → heard decl c from number (messages.Inquiry tx)
        ≡ moved c (sending (record { to = from; message = messages.Decision tx (outcome_of c tx) } ∷ [])) }
    ensures ask { (decl : Declaration) (c : Client) (from number : ℕ) (tx : TxId)
        → heard decl c from number (messages.Ask tx) ≡ moved c (sending
        (record { to = from; message = messages.Answer number (Answered (outcome_of c tx)) } ∷ [])) }
    ensures committed { (c : Client) (tx : TxId) (stamp : Stamp) → known c.desk tx ≡ knowns.Committed stamp
        → outcome_of c tx ≡ outcomes.Committed stamp }
    ensures active { (c : Client) (tx : TxId) → known c.desk tx ≡ knowns.Uncommitted
        → is_begun tx c.front.transaction ≡ true → outcome_of c tx ≡ outcomes.Active }
    ensures aborted { (c : Client) (tx : TxId) → known c.desk tx ≡ knowns.Uncommitted
        → is_begun tx c.front.transaction ≡ false → outcome_of c tx ≡ outcomes.Aborted }
    ensures stays { (decl : Declaration) (c : Client) (inputs : List NumberedInput) (tx : TxId) (stamp : Stamp)
        → outcome_of c tx ≡ outcomes.Committed stamp
        → outcome_of (after_inputs decl c inputs) tx ≡ outcomes.Committed stamp }
{}

/// Each Decision that a turn sends tells how its transaction stands after it:
/// so Committed only of one that has a record, with its stamp, and Aborted only
/// of one that has none and isn't begun (any more).
pub fn decisions_tell_outcomes()
    ensures { (decl : Declaration) (number : ℕ) (inputs : List NumberedInput) (given : Input)
        → AreReady decl (new_client number) inputs
        → Every (λ (p : Posting). TellsOutcome
        (client_takes decl (after_inputs decl (new_client number) inputs) given).client p.message)
        (client_takes decl (after_inputs decl (new_client number) inputs) given).turn.sends }
{}

/// No two records of a client are of one transaction, and the transaction that
/// is begun has none.
pub fn transactions_commit_once()
    ensures apart { (decl : Declaration) (number : ℕ) (inputs : List NumberedInput)
        → AreReady decl (new_client number) inputs
        → AllPairs (λ (c d : Commit). same_tx c.tx d.tx ≡ false)
        (after_inputs decl (new_client number) inputs).desk.commits }
    ensures begun { (decl : Declaration) (number : ℕ) (inputs : List NumberedInput) (tx : TxId)
        → AreReady decl (new_client number) inputs
        → name_of (after_inputs decl (new_client number) inputs).front.transaction ≡ Some tx
        → known (after_inputs decl (new_client number) inputs).desk tx ≡ knowns.Uncommitted }
{}

/// Nothing is done, and there is no turn, for what no run gives a client: a
/// request, a Decision, a Close, an Install, the command to move an epoch.
pub fn other_inputs_do_nothing()
    ensures request { (decl : Declaration) (c : Client) (from number : ℕ) (tx : TxId) (epoch life : ℕ) (want : Want)
        → heard decl c from number (messages.Request tx epoch life want) ≡ moved c quiet }
    ensures decision { (decl : Declaration) (c : Client) (from number : ℕ) (tx : TxId) (verdict : Outcome)
        → heard decl c from number (messages.Decision tx verdict) ≡ moved c quiet }
    ensures close { (decl : Declaration) (c : Client) (from number epoch : ℕ)
        → heard decl c from number (messages.Close epoch) ≡ moved c quiet }
    ensures install { (decl : Declaration) (c : Client) (from number epoch clock : ℕ) (log : List Line)
        → heard decl c from number (messages.Install (start_with epoch clock log)) ≡ moved c quiet }
    ensures epoch { (decl : Declaration) (c : Client) (number : ℕ)
        → called decl c (commands.Epoch number) ≡ moved c quiet }
{}
