//! Disks that come back to the rack one by one, in any order: laws, each the
//! contract of a function with nothing to do.

ghost use Rattle.std.specs.Prelude.{◌≡◌, ◌≤◌, ◌<◌, ◌+◌, ◌-◌, ◌^◌, ℕ, Bool, true, false, List};
ghost use Rattle.qc_msg.specs.Steps.{Entry};
ghost use Rattle.qc_outside.specs.Disk.{IsKept};
ghost use Rattle.qc_promise.specs.DiskAccount.{AreFallsBelow, IsEverInTime, disk_account};
ghost use Rattle.qc_promise.specs.Spent.{Spent};
ghost use Rattle.laws_bounds.specs.Faults.{AreFaultsBelow};
ghost use Rattle.laws_bounds.specs.Falls.{IsSpentSoFar};
ghost use Rattle.laws_bounds.specs.Visits.{nobody, visits_below, with_visit};
ghost use Rattle.qc_store.specs.Accounts.{IsCounted};

/// Numbers that are visited one by one, each once: as many are visited as there
/// were visits, and once these are as many as there are numbers, each is.
pub fn visits_are_counted()
    ensures none { (n : ℕ) → visits_below n nobody ≡ 0 }
    ensures one { (n a : ℕ) (visited : ℕ → Bool) → a < n → visited a ≡ false
        → visits_below n (with_visit visited a) ≡ visits_below n visited + 1 }
    ensures most { (n : ℕ) (visited : ℕ → Bool) → visits_below n visited ≤ n }
    ensures all { (n a : ℕ) (visited : ℕ → Bool) → visits_below n visited ≡ n → a < n → visited a ≡ true }
    ensures visited { (a : ℕ) (visited : ℕ → Bool) → with_visit visited a a ≡ true }
    ensures others { (a b : ℕ) (visited : ℕ → Bool) → visited b ≡ true → with_visit visited a b ≡ true }
{}

/// Where each disk counted the falls of its actor's account, and comes back to the
/// rack, the rack's count rises by all of them together, in whatever order they
/// come, and a disk that counted anything may come as well. Once all came back,
/// what the count rose by spends the history, as long as 64 bits hold the count.
pub fn falls_are_spent_disk_by_disk()
    ensures none { (n : ℕ) (h : List Entry) (before : ℕ) → IsSpentSoFar n h nobody before before }
    ensures one { (n a : ℕ) (h : List Entry) (visited : ℕ → Bool) (before now disk then : ℕ) → a < n
        → visited a ≡ false → IsCounted (disk_account a h).unarmed disk → IsKept now disk then
        → IsSpentSoFar n h visited before now → IsSpentSoFar n h (with_visit visited a) before then }
    ensures other { (n : ℕ) (h : List Entry) (visited : ℕ → Bool) (before now disk then : ℕ)
        → IsKept now disk then → IsSpentSoFar n h visited before now → IsSpentSoFar n h visited before then }
    ensures all { (n : ℕ) (h : List Entry) (visited : ℕ → Bool) (before now : ℕ)
        → ((a : ℕ) → a < n → visited a ≡ true) → now < 2 ^ 64 - 1 → AreFallsBelow n h
        → ((a : ℕ) → IsEverInTime a h) → IsSpentSoFar n h visited before now → Spent h (now - before) }
    // Nobody else has faults.
    ensures below { (n : ℕ) (h : List Entry) (visited : ℕ → Bool) (before now : ℕ)
        → ((a : ℕ) → a < n → visited a ≡ true) → now < 2 ^ 64 - 1 → AreFaultsBelow n h
        → ((a : ℕ) → a < n → IsEverInTime a h) → IsSpentSoFar n h visited before now → Spent h (now - before) }
{}
