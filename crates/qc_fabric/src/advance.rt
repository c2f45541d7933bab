//! What the controller may do next, and that it does so.

ghost use Rattle.std.specs.Prelude.{◌≡◌, ◌≤◌, ◌↔◌, ℕ, IfOk, IfSome, IsTrue, None, OnErr};
ghost use Rattle.qc_decl.specs.Actors.{controller};
ghost use Rattle.qc_msg.specs.declared.step.Control.{Control};
ghost use Rattle.qc_msg.specs.declared.step.Control.TheVariants.{Phase};
ghost use Rattle.qc_pass.specs.Tokens.{number, pass_table};
ghost use Rattle.qc_fabric.specs.Advances.{Advances};
ghost use Rattle.qc_fabric.specs.Controls.{ComesNext, IsControllers, IsUpTo, MayDo};

use crate::conduct::{Conduct, RunName};
use crate::state::FabricState;
use qc_decl::Declaration;
use qc_list::OutOfMemory;
use qc_msg::{Control, Step};
use qc_pass::Pass;

impl<C: Conduct, N: RunName> FabricState<C, N> {
    /// What may be done next: where no limit is reached, the first control line
    /// left of the phase acts, or the next phase begins once nothing is left to do
    /// in this one. Only phases up to the last one that is given are meant. It
    /// takes no memory.
    pub fn next_order(&self, decl: &Declaration, last: u32) -> Option<Control>
        requires { decl.now ≡ N.declaration }
        ensures some { IfSome result
            (λ c. MayDo N.declaration N.script self.now.history self.now.open_inputs c × IsUpTo last c) }
        ensures none { result ≡ None → (c : Control) → IsUpTo last c
            → MayDo N.declaration N.script self.now.history self.now.open_inputs c → ⊥ }
    {
        if self.full().is_some() {
            return None;
        }
        match self.next_control() {
            Some(Control::Cut(a, b)) => Some(Control::Cut(a, b)),
            Some(Control::Heal(a, b)) => Some(Control::Heal(a, b)),
            Some(Control::Armed { actor, kind, at }) => Some(Control::Armed { actor, kind, at }),
            Some(Control::Crash(actor)) => Some(Control::Crash(actor)),
            Some(Control::Restart(actor)) => Some(Control::Restart(actor)),
            Some(Control::Phase(_)) => None,
            None => self.next_phase(decl, last),
        }
    }

    /// The next phase, where nothing is left to do in this one, and it isn't the
    /// last one that is given, nor the script's.
    fn next_phase(&self, decl: &Declaration, last: u32) -> Option<Control>
        requires { decl.now ≡ N.declaration }
        ensures some { IfSome result
            (λ c. ComesNext N.declaration N.script self.now.history self.now.open_inputs c × IsUpTo last c) }
        ensures none { result ≡ None → (k : ℕ) → k ≤ last
            → ComesNext N.declaration N.script self.now.history self.now.open_inputs (Phase k) → ⊥ }
    {
        let is_last = self.phase as usize >= self.script.phases.items().len();
        if self.phase >= last || is_last || !self.quiet(decl) {
            None
        } else {
            Some(Control::Phase(self.phase + 1))
        }
    }

    /// The controller does what it may do next, if anything, in phases up to the
    /// last one that is given. Whether there was anything: a line of an actor's is
    /// left to who has that actor's pass. Where there was nothing, the controller's
    /// pass sees the history. After want of memory nothing has changed.
    pub fn do_next(
        &mut self,
        decl: &Declaration,
        pass: &mut Pass<Step>,
        last: u32,
    ) -> Result<bool, OutOfMemory>
        requires declaration { decl.now ≡ N.declaration }
        requires table { pass_table pass.old ≡ N.table }
        requires controller { number pass.old ≡ controller N.declaration }
        ensures ok { IfOk result (λ did. Advances (C.lawful N.declaration) (C.fits N.declaration) N.declaration N.script
            last pass.old pass.new self.old.history self.old.open_inputs self.new.history did) }
        ensures same { (self.new.open_inputs ≡ self.old.open_inputs) × (self.new.held ≡ self.old.held) }
        ensures spare { self.new.spare ≡ self.old.spare }
        ensures err { OnErr result ((self.new ≡ self.old) × (pass.new ≡ pass.old)) }
    {
        match self.next_order(decl, last) {
            Some(control) => {
                if is_controllers(control) {
                    self.order(pass, control)?;
                }
                Ok(true)
            }
            None => {
                self.look(pass);
                Ok(false)
            }
        }
    }
}

/// Whether the controller does this with no actor.
fn is_controllers(control: Control) -> bool
    ensures { IsTrue result ↔ IsControllers control }
{
    match control {
        Control::Phase(_) | Control::Cut(_, _) | Control::Heal(_, _) => true,
        Control::Armed { .. } | Control::Crash(_) | Control::Restart(_) => false,
    }
}
