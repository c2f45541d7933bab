//! Control lines that are left: those at the front that have nothing to do are
//! passed over.

ghost use Rattle.std.specs.Prelude.{◌≡◌};
ghost use Rattle.qc_script.specs.Inbox.{acting, does_nothing};
ghost use Rattle.qc_mailbox.specs.Passing.{first_does_nothing};
ghost use Rattle.qc_mailbox.specs.Queues.{items};

use crate::queue::Queue;
use crate::ups::Ups;
use qc_msg::Control;

/// Whether a control line has nothing to do: it crashes an actor that is down,
/// or restarts one that is up.
fn does_nothing(up: &Ups, line: Control) -> bool
    ensures { result ≡ does_nothing up.now line }
{
    match line {
        Control::Phase(_) | Control::Cut(_, _) | Control::Heal(_, _) | Control::Armed { .. } => {
            false
        }
        Control::Crash(actor) => !up.is_up(actor as usize),
        Control::Restart(actor) => up.is_up(actor as usize),
    }
}

/// Whether the first line has nothing to do.
fn first_does_nothing(controls: &Queue<Control>, up: &Ups) -> bool
    ensures { result ≡ first_does_nothing up.now (items controls.now) }
{
    match controls.first() {
        Some(line) => does_nothing(up, line),
        None => false,
    }
}

/// Takes the lines away that have nothing to do, up to one that has.
#[tactic(auto, using(crate::proofs::Requested::acting_past, crate::proofs::Requested::acting_now))]
pub(crate) fn pass_idle(controls: &mut Queue<Control>, up: &Ups)
    ensures { items controls.new ≡ acting up.now (items controls.old) }
{
    'lines: while first_does_nothing(controls, up) {
        controls.drop_first();
    }
}
