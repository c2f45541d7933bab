//! Laws of clocks in every run with falls whose records are kept, each the
//! contract of a function with nothing to do.

ghost use Rattle.std.specs.Prelude.{◌≡◌, ◌-◌, ◌<◌, ◌≤◌, ℕ, true, false, [], Some, slice_get};
ghost use Rattle.qc_core.specs.Lives.{is_up};
ghost use Rattle.qc_decl.specs.Actors.{is_site};
ghost use Rattle.qc_entry.specs.declared.line.Line.{Line};
ghost use Rattle.qc_entry.specs.declared.record.Commit.{Commit};
ghost use Rattle.laws_votes.specs.Counted.{IsCountedInLife};
ghost use Rattle.laws_votes.specs.Recorded.{IsRecorded};
ghost use Rattle.qc_list.specs.Members.{In};
ghost use Rattle.qc_msg.specs.Deeds.{deeds, mail};
ghost use Rattle.qc_msg.specs.declared.message.Answer.TheVariants.{Shut};
ghost use Rattle.qc_msg.specs.declared.message.Envelope.{Envelope};
ghost use Rattle.qc_msg.specs.declared.message.Message.TheVariants.{Answer};
ghost use Rattle.qc_msg.specs.declared.payload.Snapshot.{Snapshot};
ghost use Rattle.qc_msg.specs.declared.record.Record.TheVariants.{Done};
ghost use Rattle.qc_promise.specs.SiteClocks.{clock_shown};
ghost use Rattle.qc_promise.specs.SiteLogs.{log_shown};
ghost use Rattle.laws_reach.specs.Standing.{records_of};
ghost use Rattle.qc_stamp.specs.declared.stamp.TxId.{TxId};
ghost use Rattle.laws_turns.specs.EachRun.{OfEachKeptRun};

use qc_script::ConductWithFalls;

/// The client's half of the clock law through falls: the stamp of a commit
/// record, written or being written as the client fell, is above the clock of
/// each grant and of each promise that the client counted before, in that life
/// (Lamport 1978).
pub fn stamps_pass_what_was_counted_in_their_lives<C: ConductWithFalls>()
    ensures { OfEachKeptRun C.fits (λ decl script h open_inputs. (c : Commit) (r : IsRecorded decl h c) (clock : ℕ)
        → IsCountedInLife decl (r.actor - decl.sites) (deeds r.actor [] r.before) clock → clock < c.stamp.clock) }
{}

/// The site's half of the clock law through falls: the clock of a site that is
/// up and has no open input has passed the stamp of each line that it knows.
/// What it grants and promises tells this clock, as is due.
pub fn sites_clocks_pass_their_lines_through_falls<C: ConductWithFalls>()
    ensures { OfEachKeptRun C.fits (λ decl script h open_inputs. (site : ℕ) (line : Line) → is_site decl site ≡ true
        → slice_get open_inputs site ≡ Some false → is_up (deeds site [] h) ≡ true
        → In line (log_shown (deeds site [] h)) → line.stamp.clock ≤ clock_shown (deeds site [] h)) }
{}

/// And it has passed the clock of each Done that stands on its disk, from this
/// life or an earlier one.
pub fn sites_clocks_pass_their_dones_through_falls<C: ConductWithFalls>()
    ensures { OfEachKeptRun C.fits (λ decl script h open_inputs. (site : ℕ) (tx : TxId) (clock : ℕ)
        → is_site decl site ≡ true → slice_get open_inputs site ≡ Some false → is_up (deeds site [] h) ≡ true
        → In (Done tx clock) (records_of h site) → clock ≤ clock_shown (deeds site [] h)) }
{}

/// What a site tells as it closes its epoch has a clock that has passed the stamp
/// of each line in its log (Lamport 1978).
pub fn shuts_pass_their_lines_through_falls<C: ConductWithFalls>()
    ensures { OfEachKeptRun C.fits (λ decl script h open_inputs. (e : Envelope) (to : ℕ) (snapshot : Snapshot)
        → In e (mail h) → e.message ≡ Answer to (Shut snapshot) → (line : Line) → In line snapshot.log
        → line.stamp.clock ≤ snapshot.clock) }
{}
