//! What an answer that counts, or a lost request, comes to: for the round, for
//! the client's clock and epoch, for the transaction.

ghost use Rattle.std.specs.Prelude.{◌≡◌, IfOk};
ghost use Rattle.std.specs.Option.{option_copied};
ghost use Rattle.qc_front.specs.Counting.{learns, standing_of};
ghost use Rattle.qc_front.specs.Drafts.{appended_draft, draft_of, noted, read_draft};

use crate::draft::Draft;
use crate::front::Front;
use crate::transaction::Transaction;
use qc_list::OutOfMemory;
use qc_msg::{Answer, Calls};
use qc_plan::{Round, Standing};

impl Front {
    /// The clock passes that of a grant (Lamport 1978), the known epoch that of
    /// a closed one.
    pub(crate) fn learn(&mut self, answer: Option<&Answer>)
        ensures { self.new ≡ learns self.old (option_copied answer.entry) }
    {
        match answer {
            Some(Answer::Granted(grant)) => self.clock.pass(grant.clock),
            Some(Answer::Closed { epoch }) => self.epoch = self.epoch.max(*epoch),
            _ => {}
        }
    }
}

impl Transaction {
    /// The transaction after what came of a Read of an object at a site: a
    /// grant's log joins the object's view.
    pub(crate) fn read_with(
        &self,
        object: u8,
        site: u8,
        answer: Option<&Answer>,
    ) -> Result<Draft, OutOfMemory>
        ensures { IfOk result (λ d. d ≡ read_draft (draft_of self.now object) site (option_copied answer.entry)) }
    {
        let mut draft = self.draft(object)?;
        if let Some(Answer::Granted(grant)) = answer {
            draft.live(site, grant.life)?;
            draft.join(&grant.log)?;
        }
        Ok(draft)
    }

    /// The transaction after what came of an Append at a site.
    pub(crate) fn appended_with(
        &self,
        object: u8,
        site: u8,
        answer: Option<&Answer>,
    ) -> Result<Draft, OutOfMemory>
        ensures { IfOk result (λ d. d ≡ appended_draft (draft_of self.now object) site (option_copied answer.entry)) }
    {
        let mut draft = self.draft(object)?;
        if let Some(Answer::Granted(grant)) = answer {
            draft.live(site, grant.life)?;
        }
        Ok(draft)
    }
}

/// A round as far as it has come, with its requests that are open.
#[derive(Drop)]
pub(crate) struct OpenRound {
    /// The open requests.
    pub(crate) calls: Calls,
    /// What came of the others.
    pub(crate) round: Round,
}

/// A round once it notes what came of one of its open requests.
#[derive(Drop)]
pub(crate) struct Noted {
    /// The site that was asked.
    pub(crate) site: u8,
    /// The other open requests.
    pub(crate) calls: Calls,
    /// The round.
    pub(crate) round: Round,
}

impl Noted {
    /// The round after what came of the request of this number, or none where
    /// that isn't open.
    pub(crate) fn of(
        calls: &Calls,
        round: &Round,
        number: u32,
        answer: Option<&Answer>,
    ) -> Result<Option<Noted>, OutOfMemory>
        ensures { IfOk result (λ n. n ≡ noted calls.now round.now number (option_copied answer.entry)) }
    {
        let Some(site) = calls.site_called(number) else {
            return Ok(None);
        };
        let mut round = round.copy()?;
        round.note(site, standing_of(answer));
        let calls = calls.without_call(number);
        Ok(Some(Noted { site, calls, round }))
    }
}

/// What a round notes: a site that neither grants, nor clashes, nor is closed,
/// is missing.
fn standing_of(answer: Option<&Answer>) -> Standing
    ensures { result ≡ standing_of (option_copied answer.entry) }
{
    match answer {
        Some(Answer::Granted(_)) => Standing::Granted,
        Some(Answer::Clash { holder, .. }) => Standing::Clash { tx: *holder },
        Some(Answer::Closed { epoch }) => Standing::Closed { epoch: *epoch },
        _ => Standing::Missing,
    }
}
