//! The machine does what it is for.

ghost use Rattle.std.specs.Prelude.{◌≡◌, ◌∷◌, []};
ghost use Rattle.theory_marks.specs.Exchange.{log_granted};
ghost use Rattle.theory_marks.specs.Acts.{IsRun};
ghost use Rattle.theory_marks.specs.Witnesses.{second_grant, short_append, three_reads};
ghost use Rattle.theory_marks.specs.Wrong.{line};

/// There is a run of three Reads.
#[tactic(auto, using(crate::proofs::Witnessed::reads_run))]
pub fn reads_run()
    ensures { IsRun three_reads }
{}

/// The second one brings the one line that came since the first.
#[tactic(auto, using(crate::proofs::Witnessed::a_second_read_brings_one_line))]
pub fn a_second_read_brings_one_line()
    ensures { log_granted second_grant ≡ line 2 ∷ [] }
{}

/// The Append after them brings one line of a view of three.
#[tactic(auto, using(crate::proofs::Witnessed::lacked, crate::proofs::Witnessed::whole))]
pub fn an_append_brings_one_line_of_three()
    ensures lines { short_append.lines ≡ line 3 ∷ [] }
    ensures view { short_append.view ≡ line 1 ∷ line 2 ∷ line 3 ∷ [] }
{}
