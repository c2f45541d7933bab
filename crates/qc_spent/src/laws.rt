//! Laws of stores, each the contract of a function with nothing to do.

ghost use Rattle.std.specs.Prelude.{◌≡◌, ◌≤◌, ◌==◌, ℕ, Bool, true, false, List, ◌++◌, ◌∷◌, []};
ghost use Rattle.qc_msg.specs.Deeds.{own};
ghost use Rattle.qc_msg.specs.Steps.{Entry, by, marked};
ghost use Rattle.qc_msg.specs.declared.step.Step.{Step};
ghost use Rattle.qc_msg.specs.declared.step.Step.TheVariants.{Armed};
ghost use Rattle.qc_outside.specs.declared.disk.ArmKind.{ArmKind};
ghost use Rattle.qc_promise.specs.DiskAccount.{AreFallsBelow, DiskAccount, IsEverInTime, disk_account, disk_armed};
ghost use Rattle.qc_promise.specs.DiskAccount.{total_below};
ghost use Rattle.qc_promise.specs.Kept.{Journal, Kept};
ghost use Rattle.qc_promise.specs.Spent.{Spent};
ghost use Rattle.qc_promise.specs.Stores.{AreKept, AreStoreSteps, IsKeptOrUnfit, IsOfOthers, IsStoreOf};
ghost use Rattle.qc_promise.specs.Stores.{disk_account_after, journal_after};

/// Where no fault ever waits past its call in any disk's account, and the falls
/// that nothing armed can have made are in each no more than a count, the counts
/// together spend what the history's falls are held against.
pub fn accounts_make_spent()
    ensures { (h : List Entry) (actors n : ℕ) (counts : ℕ → ℕ) → AreFallsBelow actors h
        → ((a : ℕ) → IsEverInTime a h) → ((a : ℕ) → (disk_account a h).unarmed ≤ counts a)
        → total_below actors counts ≤ n → Spent h n }
{}

/// The other way round, where falls are held against a count, no fault waits past
/// its call in any disk's account, and the falls of all accounts together are no
/// more than the count.
pub fn spent_histories_are_of_accounts()
    ensures in_time { (h : List Entry) (actors n : ℕ) → AreFallsBelow actors h → Spent h n
        → (a : ℕ) → IsEverInTime a h }
    ensures falls { (h : List Entry) (actors n : ℕ) → AreFallsBelow actors h → Spent h n
        → total_below actors (λ a. (disk_account a h).unarmed) ≤ n }
{}

/// Where each actor's own steps keep its records, the history keeps all.
pub fn own_steps_make_kept()
    ensures { (h : List Entry) → ((a : ℕ) → AreKept (own a h)) → Kept h }
{}

/// Where a history keeps all records, each actor's own steps keep its own.
pub fn kept_histories_keep_own_steps()
    ensures { (h : List Entry) (a : ℕ) → Kept h → AreKept (own a h) }
{}

/// What is known of an actor's store goes on: it stays over what others do, it is
/// what the actor's own steps make of it, where each keeps the records and lets no
/// fault wait past its call, and a fault that is armed takes its place in the
/// disk's account.
pub fn stores_go_on()
    ensures others { (tells : Bool) (a : ℕ) (h more : List Entry) (j : Journal) (t : DiskAccount)
        → IsOfOthers a more → IsStoreOf tells a h j t → IsStoreOf tells a (h ++ more) j t }
    ensures own { (tells : Bool) (a : ℕ) (h : List Entry) (own : List Step) (j : Journal) (t : DiskAccount)
        → AreStoreSteps tells a j t own → IsStoreOf tells a h j t
        → IsStoreOf tells a (h ++ by a own) (journal_after j own) (disk_account_after a t own) }
    ensures arms { (tells : Bool) (a c : ℕ) (h : List Entry) (kind : ArmKind) (at : ℕ) (j : Journal)
        (t : DiskAccount) → (c == a) ≡ false → 1 ≤ at → IsStoreOf tells a h j t
        → IsStoreOf tells a (h ++ marked c (Armed a kind at) ∷ []) j (disk_armed t kind at) }
{}

/// Where damage is found only where a record doesn't fit, and each record fits as
/// long as records were kept so far, records are kept, and nothing is damaged.
pub fn fitting_records_are_kept()
    ensures { (h : List Entry) (fits : ℕ → List Entry → Bool)
        → ((before later : List Entry) (e : Entry) → before ++ e ∷ later ≡ h
        → IsKeptOrUnfit (fits e.actor before) (own e.actor before) e.step)
        → ((a : ℕ) (before later : List Entry) → before ++ later ≡ h → Kept before → fits a before ≡ true) → Kept h }
{}
