//! What a running command waits for, as contracts of functions with nothing to
//! do.

ghost use Rattle.std.specs.Prelude.{◌≡◌, ◌⊎◌, ◌-◌, ℕ, true, false, List, [], Some, None, fold};
ghost use Rattle.laws_due.specs.Ties.{NoneRuns};
ghost use Rattle.laws_due.specs.Waits.{IsAwaited, IsEnough, IsGrantedDo, IsWaiting};
ghost use Rattle.qc_core.specs.Acts.{Acts};
ghost use Rattle.qc_core.specs.Conduct.{IsLawful};
ghost use Rattle.qc_decl.specs.Actors.{is_client};
ghost use Rattle.qc_decl.specs.Lookup.{append_need_of};
ghost use Rattle.qc_decl.specs.declared.declaration.Declaration.{Declaration};
ghost use Rattle.qc_list.specs.Members.{In};
ghost use Rattle.qc_msg.specs.Deeds.{Deed};
ghost use Rattle.qc_msg.specs.declared.reply.Reply.TheVariants as replies;
ghost use Rattle.qc_msg.specs.declared.turn.Turn.{Turn};
ghost use Rattle.qc_promise.specs.Account.{ClientRequest, Current, is_append};
ghost use Rattle.qc_promise.specs.Accounting.{account_of};
ghost use Rattle.qc_promise.specs.Rounds.{answer_of};
ghost use Rattle.qc_decl.specs.Lookup.{resp_of};
ghost use Rattle.qc_promise.specs.Rows.{due};

/// Where a client has no open input, its running command waits for an open
/// request: so every command ends once each request is answered or lost. Only
/// the command to move an epoch, which nobody asks a client, never ends.
pub fn commands_wait_for_requests()
    ensures { (decl : Declaration) (a : ℕ) → is_client decl a ≡ true → (ds : List Deed) (n : ℕ)
        → Acts decl a ds false n
        → NoneRuns (account_of decl (a - decl.sites) ds).command
        ⊎ IsWaiting (account_of decl (a - decl.sites) ds) }
{}

/// An open request was sent, and neither an answer to it nor its loss was taken
/// since.
#[tactic(auto, using(crate::proofs::Awaited::open_requests_were_sent))]
pub fn open_requests_were_sent()
    ensures { (decl : Declaration) (client : ℕ) (ds : List Deed) (q : ClientRequest)
        → In q (account_of decl client ds).requests → q.taken ≡ None → IsAwaited ds q }
{}

/// Where a client has no open input nothing is due: whatever was due has been
/// told.
pub fn what_is_due_is_told()
    ensures { (decl : Declaration) (a : ℕ) → is_client decl a ≡ true → (ds : List Deed) (n : ℕ)
        → Acts decl a ds false n
        → due decl (account_of decl (a - decl.sites) ds) false ≡ None }
{}

/// A `do` whose requests are all granted, by sites that weigh what it needs, is
/// told its response, or Absent where the view has none, by the turn for the
/// last of them.
pub fn granted_dos_are_answered()
    ensures absent { (decl : Declaration) (a : ℕ) → is_client decl a ≡ true → (ds : List Deed) (n : ℕ) (turn : Turn)
        → Acts decl a ds true n → IsLawful decl a ds turn → (t : Current) (object inv : ℕ)
        → IsGrantedDo decl (account_of decl (a - decl.sites) ds) t object inv
        → answer_of decl t object inv ≡ None → turn.told ≡ Some replies.Absent }
    ensures response { (decl : Declaration) (a : ℕ) → is_client decl a ≡ true → (ds : List Deed) (n : ℕ) (turn : Turn)
        → Acts decl a ds true n → IsLawful decl a ds turn → (t : Current) (object inv event : ℕ)
        → IsGrantedDo decl (account_of decl (a - decl.sites) ds) t object inv
        → answer_of decl t object inv ≡ Some event
        → IsEnough decl (account_of decl (a - decl.sites) ds) t is_append
        (append_need_of decl t.epoch object event)
        → turn.told ≡ Some (replies.Response (resp_of decl object event)) }
{}
