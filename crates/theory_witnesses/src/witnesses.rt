//! Two runs in which transactions commit, whatever befalls sites, clients and
//! messages, and one in which sites share their logs.

ghost use Rattle.std.specs.Prelude.{◌++◌, [], ◌∷◌};
ghost use Rattle.qc_decl.specs.One.{three};
ghost use Rattle.theory_witnesses.specs.Settings.{three_in_two_epochs};
ghost use Rattle.theory_witnesses.specs.Witnesses.{Commits, IsRefused, conflict, one_epoch, one_epoch_records};
ghost use Rattle.theory_witnesses.specs.Witnesses.{Brings, missed_write, shared_write, two_epochs, written_line};
ghost use Rattle.theory_witnesses.specs.Witnesses.{two_epochs_records, read_under_way, write_under_way};

/// Two clients, in one epoch: a conflict, a client that falls with its commit
/// record pending and rises with it, a site that falls between its vote and
/// the verdict, a late grant, a late verdict; and both clients commit.
#[tactic(auto, using(crate::proofs::WitnessRuns::one_epoch_commits))]
pub fn one_epoch_commits()
    ensures { Commits three one_epoch one_epoch_records }
{}

/// In that run, the second site refuses the other client's read lock while it
/// holds the first client's write.
#[tactic(auto, using(crate::proofs::WitnessRuns::conflict_is_refused))]
pub fn conflict_is_refused()
    ensures { IsRefused three (write_under_way ++ read_under_way) conflict }
{}

/// Over two epochs: what was prepared at a site as it closed is read in the new
/// epoch, and a transaction of the old epoch commits after the new one was
/// decided.
#[tactic(auto, using(crate::proofs::WitnessRuns::two_epochs_commit))]
pub fn two_epochs_commit()
    ensures { Commits three_in_two_epochs two_epochs two_epochs_records }
{}

/// A write is committed at two sites. The first of them shares its log, and the
/// third one, which knew nothing, takes it; and once more, late, after a fall.
#[tactic(auto, using(crate::proofs::WitnessRuns::shares_bring_what_was_missed))]
pub fn shares_bring_what_was_missed()
    ensures { Brings three missed_write shared_write 2 (written_line ∷ []) }
{}
