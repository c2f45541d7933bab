//! Laws of a client and the account of its deeds, each the contract of a
//! function with nothing to do.

ghost use Rattle.std.specs.Prelude.{◌≡◌, ◌-◌, ℕ, Bool, true, false, List, [], ◌∷◌, ◌++◌, Some};
ghost use Rattle.laws_due.specs.Declares.{Declares};
ghost use Rattle.laws_due.specs.ByRows.{AreByRows};
ghost use Rattle.laws_due.specs.Goes.{Goes, Holds};
ghost use Rattle.qc_promise.specs.Replies.{AreRepliesDue, IsFreeFor, IsRecordDue, IsReplyDue};
ghost use Rattle.laws_due.specs.Ties.{Ties};
ghost use Rattle.qc_client.specs.Conduct.{client_after, client_takes};
ghost use Rattle.qc_client.specs.declared.client.Client.{Client};
ghost use Rattle.qc_core.specs.Acts.{Acts};
ghost use Rattle.qc_core.specs.Conduct.{IsLawful};
ghost use Rattle.qc_decl.specs.Actors.{is_client};
ghost use Rattle.qc_decl.specs.declared.declaration.Declaration.{Declaration};
ghost use Rattle.qc_msg.specs.Deeds.{Deed, Rises};
ghost use Rattle.qc_entry.specs.declared.record.Commit.{Commit};
ghost use Rattle.qc_msg.specs.declared.record.Record.{Record};
ghost use Rattle.qc_msg.specs.declared.record.Record.TheVariants as records;
ghost use Rattle.qc_msg.specs.declared.reply.Reply.TheVariants as replies;
ghost use Rattle.qc_promise.specs.Posts.{pending_next};
ghost use Rattle.qc_msg.specs.declared.step.Input.{Input};
ghost use Rattle.qc_msg.specs.declared.turn.Turn.{Turn};
ghost use Rattle.qc_promise.specs.Account.{Account, account_with, new_account};
ghost use Rattle.qc_promise.specs.Accounting.{account_of, account_taken};
ghost use Rattle.qc_promise.specs.Rows.{due, running_row};

/// What a client does for an input that it may take is due: its commit record,
/// the requests that it sends, in order, and its reply. It tells just what is
/// due after the input. The account and the client are tied again after it.
pub fn inputs_are_answered_as_is_due()
    ensures { (decl : Declaration) (number : ℕ) (d : Account) (c : Client) → Holds decl c → (given : Input)
        → IsFreeFor d given → Ties decl d c → Goes decl number (account_taken d given) (client_takes decl c given) }
{}

/// Where a client has no open input, the account of its deeds tells it.
#[tactic(auto, using(crate::proofs::Courses::accounts_are_their_clients))]
pub fn accounts_are_their_clients()
    ensures { (decl : Declaration) (a : ℕ) → is_client decl a ≡ true → (ds : List Deed) (n : ℕ)
        → Acts decl a ds false n
        → Ties decl (account_of decl (a - decl.sites) ds)
        (client_after decl (a - decl.sites) ds).client }
{}

/// As a client rises, its account is that of the records that it rose with,
/// whatever it did before.
#[tactic(auto, using(crate::proofs::Anew::accounts_begin_anew))]
pub fn accounts_begin_anew()
    ensures { (decl : Declaration) (client : ℕ) (ds : List Deed) (kept : List Record)
        → account_of decl client (ds ++ Rises kept ∷ []) ≡ account_with client kept }
{}

/// A client's turn tells what the running command's row tells after its input,
/// and nothing where the row tells nothing.
#[tactic(auto, using(crate::proofs::Courses::turns_tell_their_rows))]
pub fn turns_tell_their_rows()
    ensures { (decl : Declaration) (a : ℕ) → is_client decl a ≡ true → (ds : List Deed) (n : ℕ) (turn : Turn)
        → Acts decl a ds true n → IsLawful decl a ds turn
        → turn.told ≡ running_row decl (account_of decl (a - decl.sites) ds) false }
{}

/// It tells the reply that is due after its input, and none where none is:
/// where what came to it is declared.
pub fn turns_tell_what_is_due()
    ensures { (decl : Declaration) (a : ℕ) → is_client decl a ≡ true → (ds : List Deed) (n : ℕ) (turn : Turn)
        → Acts decl a ds true n → Declares decl ds → IsLawful decl a ds turn
        → turn.told ≡ due decl (account_of decl (a - decl.sites) ds) false }
{}

/// All that a client records, asks and tells is by the rows of its commands, by
/// the account of what it did before.
#[tactic(auto, using(crate::proofs::Courses::deeds_of_clients_are_by_rows))]
pub fn deeds_of_clients_are_by_rows()
    ensures { (decl : Declaration) (a : ℕ) → is_client decl a ≡ true → (ds : List Deed) (is_open : Bool) (n : ℕ)
        → Acts decl a ds is_open n → AreByRows decl (new_account (a - decl.sites)) ds }
{}

/// So each of its deeds is due, where what came to it is declared.
#[tactic(auto, using(crate::proofs::Whole::deeds_of_clients_are_due))]
pub fn deeds_of_clients_are_due()
    ensures { (decl : Declaration) (a : ℕ) → is_client decl a ≡ true → (ds : List Deed) (is_open : Bool) (n : ℕ)
        → Acts decl a ds is_open n → Declares decl ds → AreRepliesDue decl (a - decl.sites) ds }
{}

/// Where a client is to write a commit record and its disk falls as it writes
/// it, Unknown is the reply of its row, with just that record pending.
#[tactic(auto, using(crate::proofs::Unwritten::unwritten_commits_are_unknown))]
pub fn unwritten_commits_are_unknown()
    ensures { (decl : Declaration) (d : Account) (c : Commit) (after : List Deed)
        → IsRecordDue d (running_row decl d false) (records.Commit c)
        → pending_next after ≡ Some (records.Commit c)
        → IsReplyDue d (running_row decl d true) after replies.Unknown }
{}
