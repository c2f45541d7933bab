//! Laws of stores, each the contract of a function with nothing to do.

ghost use Rattle.std.specs.Prelude.{◌≡◌, ◌<◌, ◌≤◌, ◌-◌, ◌^◌, ℕ, suc, List, Some, None, length};
ghost use Rattle.qc_msg.specs.Steps.{Entry};
ghost use Rattle.qc_msg.specs.declared.record.Record.{Record};
ghost use Rattle.qc_outside.specs.Disk.{IsKept};
ghost use Rattle.qc_outside.specs.Fuses.{Fuse};
ghost use Rattle.qc_outside.specs.declared.disk.ArmKind.{ArmKind};
ghost use Rattle.qc_promise.specs.DiskAccount.{AreFallsBelow, DiskAccount, IsEverInTime, IsInTime, disk_account};
ghost use Rattle.qc_promise.specs.DiskAccount.{disk_armed};
ghost use Rattle.qc_promise.specs.Spent.{Spent, of_fall, of_opening};
ghost use Rattle.qc_store.specs.Accounts.{IsAccountOf, IsCounted};
ghost use Rattle.qc_store.specs.Calls.{of_bodies, of_broken_opening, of_broken_record};

/// What waits in a disk's account never waits past its call, and the falls of the
/// account are no more than the disk's own faults.
#[tactic(auto, using(crate::proofs::Accounts::in_time, crate::proofs::Accounts::counted))]
pub fn accounts_are_in_time()
    ensures in_time { (t : DiskAccount) (f : Fuse) → IsAccountOf t f → IsInTime t }
    ensures counted { (t : DiskAccount) (f : Fuse) → IsAccountOf t f → IsCounted t.unarmed f.unarmed }
{}

/// A fault that is armed anew takes the place of one that was, in the account as
/// on the disk.
#[tactic(auto, using(crate::proofs::Accounts::armed_faults_are_accounted))]
pub fn armed_faults_are_accounted()
    ensures { (t : DiskAccount) (f : Fuse) (kind : ArmKind) (at : ℕ) → 1 ≤ at → IsAccountOf t f
        → IsAccountOf (disk_armed t kind at) (record { armed = Some (kind, at); unarmed = f.unarmed }) }
{}

/// A store counts the calls that `Spent` counts of a history: in an opening, where
/// as many records rise as bodies were given; and in one that a fault broke off,
/// as in a record.
#[tactic(auto, using(crate::proofs::Calls::openings_alike))]
pub fn calls_are_those_of_histories()
    ensures openings { (bodies : List (List ℕ)) (records : List Record) → length bodies ≡ length records
        → of_bodies bodies ≡ of_opening records }
    ensures records { (written : Record) → of_broken_record ≡ of_fall (Some written) }
    ensures broken { of_broken_opening ≡ of_fall None }
{}

/// Where each disk counted the falls of its account, and goes back to the rack,
/// what the rack's count rose by spends the history, as long as 64 bits hold it.
pub fn counted_disks_make_spent()
    ensures { (h : List Entry) (actors : ℕ) (disks nows : ℕ → ℕ) → AreFallsBelow actors h
        → ((a : ℕ) → IsEverInTime a h) → ((a : ℕ) → a < actors → IsCounted (disk_account a h).unarmed (disks a))
        → ((a : ℕ) → a < actors → IsKept (nows a) (disks a) (nows (suc a))) → nows actors < 2 ^ 64 - 1
        → Spent h (nows actors - nows 0) }
{}
