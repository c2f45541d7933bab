//! Runs of the machine that keep the discipline.

ghost use Rattle.std.specs.Prelude.{◌≡◌, [], ◌∷◌, map};
ghost use Rattle.qc_decl.specs.One.{three};
ghost use Rattle.theory_machine.specs.Acts.{state};
ghost use Rattle.theory_machine.specs.State.{Decision};
ghost use Rattle.theory_witnesses.specs.Moves.{acts_of};
ghost use Rattle.theory_witnesses.specs.Settings.{moving_register, three_in_two_epochs};
ghost use Rattle.theory_witnesses.specs.Stories.{first, first_again};
ghost use Rattle.theory_witnesses.specs.Witnesses.{one_epoch, shared_write, two_epochs};
ghost use Rattle.theory_bases.specs.Witnesses.{HasDependence, HasLowSnapshot, IsDisciplinedRun, WritesAfter};
ghost use Rattle.theory_bases.specs.Witnesses.{WritesBefore};
ghost use Rattle.theory_bases.specs.Witnesses.{low_snapshot, read_and_written_in_both, two_moves, write_line};

/// The machine's own run through falls, in one epoch.
#[tactic(auto, using(crate::proofs::Disciplined::one_epoch_is_disciplined))]
pub fn one_epoch_is_disciplined()
    ensures { IsDisciplinedRun three one_epoch }
{}

/// Its own run in which a site takes what another one shares.
#[tactic(auto, using(crate::proofs::Disciplined::shares_are_disciplined))]
pub fn shares_are_disciplined()
    ensures { IsDisciplinedRun three shared_write }
{}

/// Its own run over two epochs.
#[tactic(auto, using(crate::proofs::Disciplined::two_epochs_are_disciplined))]
pub fn two_epochs_are_disciplined()
    ensures { IsDisciplinedRun three_in_two_epochs two_epochs }
{}

/// A register moves twice: the second epoch begins with one line, writes
/// another, and the third begins with both.
pub fn two_moves_are_disciplined()
    ensures disciplined { IsDisciplinedRun moving_register two_moves }
    ensures epochs { map (λ (d : Decision). d.epoch) (state (acts_of two_moves)).decided ≡ 3 ∷ 2 ∷ [] }
    ensures logs { map (λ (d : Decision). d.log) (state (acts_of two_moves)).decided
        ≡ (write_line first_again 2 ∷ write_line first 1 ∷ []) ∷ (write_line first 1 ∷ []) ∷ [] }
{}

/// In a disciplined run over two epochs a reader of the second depends on a
/// writer of the first, and one of the first on a writer of the second.
pub fn epochs_depend_on_each_other()
    ensures disciplined { IsDisciplinedRun moving_register read_and_written_in_both }
    ensures earlier { HasDependence moving_register (state (acts_of read_and_written_in_both)) WritesBefore }
    ensures later { HasDependence moving_register (state (acts_of read_and_written_in_both)) WritesAfter }
{}

/// A snapshot's clock may be below the stamp of a line that it shows. The
/// decided clock isn't, since some other site had the line's Done record.
pub fn snapshots_may_be_below_lines()
    ensures disciplined { IsDisciplinedRun moving_register low_snapshot }
    ensures low { HasLowSnapshot (state (acts_of low_snapshot)) }
    ensures decided { map (λ (d : Decision). d.clock) (state (acts_of low_snapshot)).decided ≡ 1 ∷ [] }
{}
