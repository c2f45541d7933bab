//! Steps are added to the history, by the right: one, or those of a post, or of
//! an actor's restart.

ghost use Rattle.std.specs.Prelude.{◌+◌, ◌^◌, ◌<◌, ◌∷◌, [], length};
ghost use Rattle.qc_msg.specs.Steps.{fell, posted_as, sends_as, sents, told, wrote};
ghost use Rattle.qc_msg.specs.declared.turn.Appended.TheVariants.{Done, Failed, Stopped};
ghost use Rattle.qc_fabric.specs.Feeds.{CanAdd, CanWrite, HasAdded, HasWritten};
ghost use Rattle.qc_fabric.specs.Risings.{sends_of_rising, steps_of_rising};

use crate::log::HistoryStore;
use crate::rising::Rising;
use qc_list::Marked;
use qc_msg::{Appended, Fall, Posting, Record, Reply, Step, Turn};
use qc_pass::{Pass, Passes, Right};

/// One step more, in the history and with the right. It takes no memory.
pub(crate) fn add(
    passes: &Passes<Step>,
    right: Right<Step>,
    log: &mut HistoryStore,
    pass: &mut Pass<Step>,
    step: Step,
) -> Right<Step>
    requires { CanAdd passes.now right log.old pass.old 1 }
    ensures { HasAdded right log.old pass.old result log.new pass.new step }
{
    let actor = pass.number();
    let right = passes.mark(pass, right, &step);
    log.add(Marked { actor, step });
    right
}

/// Adds steps of the pass's actor to the history, in order, by the right that each
/// call takes and gives back. It takes no memory.
// The right is no field: what a struct that owns a part leaves behind its
// references isn't known to its maker.
#[derive(Drop)]
pub(crate) struct HistoryWriter<'a> {
    pub(crate) passes: &'a Passes<Step>,
    pub(crate) log: &'a mut HistoryStore,
    pub(crate) pass: &'a mut Pass<Step>,
}

impl<'a> HistoryWriter<'a> {
    /// The steps of a turn's post, by what became of its record; the messages have
    /// the numbers from `first` on.
    pub(crate) fn post(&mut self, right: Right<Step>, turn: Turn, first: u32) -> Right<Step>
        requires room { CanWrite self.old right (length (posted_as turn.append first turn)) }
        requires few { first + length (sends_as turn.append turn) < 2 ^ 32 }
        ensures { HasWritten self.old right self.new result (posted_as turn.append first turn) }
    {
        match turn.append {
            Appended::Done => self.post_done(right, turn, first),
            Appended::Failed => self.post_failed(right, turn, first),
            Appended::Stopped => self.post_stopped(right, turn),
        }
    }

    /// The steps of an actor's restart, by what it found.
    pub(crate) fn rise(&mut self, right: Right<Step>, rising: Rising, first: u32) -> Right<Step>
        requires room { CanWrite self.old right (length (steps_of_rising first rising)) }
        requires few { first + length (sends_of_rising rising) < 2 ^ 32 }
        ensures { HasWritten self.old right self.new result (steps_of_rising first rising) }
    {
        match rising {
            Rising::Rose { records, turn } => {
                let right = self.add(right, Step::Rose(records));
                self.post(right, turn, first)
            }
            Rising::Damaged { offset } => self.add(right, Step::Damaged(offset)),
            Rising::NotOpened { cause } => self.fell(right, cause, None),
        }
    }

    /// The steps of a turn whose record is written, or that has none.
    fn post_done(&mut self, right: Right<Step>, turn: Turn, first: u32) -> Right<Step>
        requires room { CanWrite self.old right (length (posted_as Done first turn)) }
        requires few { first + length turn.sends < 2 ^ 32 }
        ensures { HasWritten self.old right self.new result (posted_as Done first turn) }
    {
        let Turn {
            write,
            sends,
            told,
            ..
        } = turn;
        let right = self.wrote(right, write);
        let right = self.sents(right, sends.into_vec(), first);
        self.told(right, told)
    }

    /// The steps of a turn whose record couldn't be written, since the disk failed:
    /// the actor falls behind what it then sends and tells.
    fn post_failed(&mut self, right: Right<Step>, turn: Turn, first: u32) -> Right<Step>
        requires room { CanWrite self.old right (length (posted_as Failed first turn)) }
        requires few { first + length turn.failed_sends < 2 ^ 32 }
        ensures { HasWritten self.old right self.new result (posted_as Failed first turn) }
    {
        let Turn {
            write,
            failed_sends,
            failed_told,
            ..
        } = turn;
        let right = self.sents(right, failed_sends.into_vec(), first);
        let right = self.told(right, failed_told);
        self.fell(right, Fall::Disk, write)
    }

    /// The steps of a turn in whose writing the disk stopped.
    fn post_stopped(&mut self, right: Right<Step>, turn: Turn) -> Right<Step>
        requires { CanWrite self.old right (length (posted_as Stopped 0 turn)) }
        ensures { HasWritten self.old right self.new result (posted_as Stopped 0 turn) }
    {
        let Turn {
            write,
            failed_told,
            ..
        } = turn;
        let right = self.told(right, failed_told);
        self.fell(right, Fall::Stop, write)
    }

    /// One step.
    fn add(&mut self, right: Right<Step>, step: Step) -> Right<Step>
        requires { CanWrite self.old right 1 }
        ensures { HasWritten self.old right self.new result (step ∷ []) }
    {
        add(self.passes, right, self.log, self.pass, step)
    }

    /// The step of a fall, with the record that was being written, if one was.
    fn fell(&mut self, right: Right<Step>, cause: Fall, pending: Option<Record>) -> Right<Step>
        requires { CanWrite self.old right 1 }
        ensures { HasWritten self.old right self.new result (fell cause pending) }
    {
        self.add(right, Step::Fell { cause, pending })
    }

    /// The step of a turn's record.
    fn wrote(&mut self, right: Right<Step>, write: Option<Record>) -> Right<Step>
        requires { CanWrite self.old right (length (wrote write)) }
        ensures { HasWritten self.old right self.new result (wrote write) }
    {
        match write {
            Some(record) => self.add(right, Step::Wrote(record)),
            None => right,
        }
    }

    /// The step of a turn's reply.
    fn told(&mut self, right: Right<Step>, reply: Option<Reply>) -> Right<Step>
        requires { CanWrite self.old right (length (told reply)) }
        ensures { HasWritten self.old right self.new result (told reply) }
    {
        match reply {
            Some(reply) => self.add(right, Step::Told(reply)),
            None => right,
        }
    }

    /// The steps of a turn's messages.
    fn sents(&mut self, right: Right<Step>, postings: Vec<Posting>, first: u32) -> Right<Step>
        requires room { CanWrite self.old right (length postings.items) }
        requires few { first + length postings.items < 2 ^ 32 }
        ensures { HasWritten self.old right self.new result (sents first postings.items) }
    {
        let mut right = right;
        let mut number = first;
        for Posting { to, message } in postings {
            let step = Step::Sent {
                number,
                to,
                message,
            };
            right = self.add(right, step);
            number += 1;
        }
        right
    }
}
