//! What is due of a client, and of the administrator, through their falls: laws as
//! contracts of functions with nothing to do.

ghost use Rattle.std.specs.Prelude.{◌≡◌, ◌<◌, ◌-◌, ℕ, Bool, true, List};
ghost use Rattle.laws_due.specs.Declares.{Declares};
ghost use Rattle.qc_core.specs.Lives.{Lives};
ghost use Rattle.qc_decl.specs.Actors.{administrator, is_client};
ghost use Rattle.qc_decl.specs.declared.declaration.Declaration.{Declaration};
ghost use Rattle.qc_msg.specs.Deeds.{Deed};
ghost use Rattle.qc_promise.specs.AdminDue.{IsAdminDue};
ghost use Rattle.qc_promise.specs.Replies.{AreRepliesDue};

/// Each deed of a client is due through its falls and rises too, with whatever
/// records it rises, where what comes to it is declared.
#[tactic(auto, using(crate::proofs::Lifelong::lives_of_clients_are_due))]
pub fn lives_of_clients_are_due()
    ensures { (decl : Declaration) (a : ℕ) → is_client decl a ≡ true → (ds : List Deed) (is_open : Bool) (n : ℕ)
        → Lives decl a ds is_open n → Declares decl ds → AreRepliesDue decl (a - decl.sites) ds }
{}

/// Each deed of the administrator is due through his falls and rises, with whatever
/// records he rises, where there is a site.
#[tactic(auto, using(crate::proofs::Administrators::lives_of_the_administrator_are_due))]
pub fn lives_of_the_administrator_are_due()
    ensures { (decl : Declaration) → 0 < decl.sites → (ds : List Deed) (is_open : Bool) (n : ℕ)
        → Lives decl (administrator decl) ds is_open n → IsAdminDue decl ds }
{}
