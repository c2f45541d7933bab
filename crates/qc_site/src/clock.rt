//! How a site's clock passes what comes (Lamport 1978).

ghost use Rattle.std.specs.Prelude.{◌≡◌};
ghost use Rattle.qc_site.specs.Conduct.{clock_after, clock_asked, clock_told, latest};

use qc_entry::Line;
use qc_msg::{Message, Outcome, Want};
use qc_stamp::Clock;

/// The clock as a message comes.
pub(crate) fn clock_after(clock: Clock, message: &Message) -> Clock
    ensures { result.value ≡ clock_after clock.value message.now }
{
    match message {
        Message::Request { want, .. } => clock_asked(clock, want),
        Message::Decision { verdict, .. } => clock_told(clock, *verdict),
        Message::Install(start) => latest(clock, start.lines.lines()),
        Message::Answer { .. }
        | Message::Inquiry { .. }
        | Message::Ask { .. }
        | Message::Close { .. } => clock,
    }
}

/// The clock as a request comes: it passes the lines of an Append's view.
fn clock_asked(clock: Clock, want: &Want) -> Clock
    ensures { result.value ≡ clock_asked clock.value want.now }
{
    match want {
        Want::Append { view, .. } => latest(clock, view.lines()),
        Want::Read(_) | Want::Prepare => clock,
    }
}

/// The clock as a decision comes: it passes the stamp of a committed one.
fn clock_told(clock: Clock, verdict: Outcome) -> Clock
    ensures { result.value ≡ clock_told clock.value verdict }
{
    let mut clock = clock;
    if let Outcome::Committed { stamp } = verdict {
        clock.pass(stamp.clock);
    }
    clock
}

/// The clock after it passes the lines' stamps.
pub fn latest(clock: Clock, lines: &[Line]) -> Clock
    ensures { result.value ≡ latest clock.value lines.now }
{
    let mut clock = clock;
    'lines: for line in lines {
        clock.pass(line.stamp.clock);
    }
    clock
}
