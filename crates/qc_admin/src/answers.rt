//! What an answer, or that a request is lost, tells him.

ghost use Rattle.std.specs.Prelude.{◌≡◌};
ghost use Rattle.std.specs.Option.{option_copied};
ghost use Rattle.qc_epoch.specs.Answers.{outcome_in, standing_of};
ghost use Rattle.qc_admin.specs.Queries.{is_installed};

use qc_msg::{Answer, Outcome};
use qc_plan::Standing;

/// What a round of Closes notes: a site that tells all it has is closed, every
/// other one is missing.
pub(crate) fn standing_of(answer: Option<&Answer>) -> Standing
    ensures { result ≡ standing_of (option_copied answer.entry) }
{
    match answer {
        Some(Answer::Shut(_)) => Standing::Granted,
        _ => Standing::Missing,
    }
}

/// The verdict that the answer to an Ask tells, if it tells one.
pub(crate) fn outcome_in(answer: Option<&Answer>) -> Option<Outcome>
    ensures { result ≡ outcome_in (option_copied answer.entry) }
{
    match answer {
        Some(Answer::Answered { verdict }) => Some(*verdict),
        _ => None,
    }
}

/// Whether the answer to an Install tells that the site is in the epoch.
pub(crate) fn is_installed(answer: Option<&Answer>) -> bool
    ensures { result ≡ is_installed (option_copied answer.entry) }
{
    matches!(answer, Some(Answer::Installed))
}
