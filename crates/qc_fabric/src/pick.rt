//! Who takes the next input.

ghost use Rattle.std.specs.Prelude.{◌≡◌, true};
ghost use Rattle.qc_mailbox.specs.Picks.{is_held};
ghost use Rattle.qc_fabric.specs.Logs.{full_of};
ghost use Rattle.qc_fabric.specs.Picks.{IsNamed, IsStopped, has_any, held_after, next_actor, picked};
ghost use Rattle.qc_fabric.specs.Picks.{where_none};

use crate::bits::{any, set};
use crate::conduct::{Conduct, RunName};
use crate::full::Full;
use crate::picked::Picked;
use crate::state::FabricState;
use qc_decl::Declaration;
use qc_mailbox::is_set;

impl<C: Conduct, N: RunName> FabricState<C, N> {
    /// Which counted quantity has reached its limit, if any.
    pub fn full(&self) -> Option<Full>
        ensures { result ≡ full_of self.now.history }
    {
        self.log.full()
    }

    /// The actor that comes next, of those that have no open input and aren't
    /// held.
    fn next_actor(&self, decl: &Declaration) -> Option<u8>
        requires { decl.now ≡ N.declaration }
        ensures { result ≡ next_actor N.declaration N.script self.now.open_inputs self.now.held self.now.history }
    {
        self.mailboxes
            .pick(decl, self.inputs.as_slice(), self.held.as_slice())
    }

    /// The actor that comes next; or which quantity has reached its limit; or that
    /// nothing is ready and nobody is held. None where nothing is ready for those
    /// that aren't held, and some actor is. It takes no memory.
    pub fn comes_next(&self, decl: &Declaration) -> Option<Picked>
        requires { decl.now ≡ N.declaration }
        ensures picked { result
            ≡ picked N.declaration N.script self.now.open_inputs self.now.held self.now.history }
        ensures named { IsNamed N.declaration result }
    {
        if let Some(full) = self.full() {
            return Some(Picked::Full(full));
        }
        match self.next_actor(decl) {
            Some(actor) => Some(Picked::Actor(actor)),
            None => self.next_nobody(),
        }
    }

    /// The same, and the actor is held from now on. It takes no memory.
    pub fn pick(&mut self, decl: &Declaration) -> Option<Picked>
        requires { decl.now ≡ N.declaration }
        ensures picked { result
            ≡ picked N.declaration N.script self.old.open_inputs self.old.held self.old.history }
        ensures same { (self.new.history ≡ self.old.history) × (self.new.open_inputs ≡ self.old.open_inputs) }
        ensures held { self.new.held ≡ held_after result self.old.held }
        ensures spare { self.new.spare ≡ self.old.spare }
        ensures named { IsNamed N.declaration result }
    {
        let next = self.comes_next(decl);
        if let Some(Picked::Actor(actor)) = next {
            set(&mut self.held, actor, true);
        }
        next
    }

    /// None while some actor is held, and else that all is quiet.
    fn next_nobody(&self) -> Option<Picked>
        ensures { result ≡ where_none (has_any self.now.held) }
    {
        if self.is_any_held() {
            None
        } else {
            Some(Picked::Quiet)
        }
    }

    /// Whether nothing is left to do in the phase: no input is open, every
    /// control line has acted, and nothing is ready for anybody. It takes no
    /// memory.
    pub fn quiet(&self, decl: &Declaration) -> bool
        requires { decl.now ≡ N.declaration }
        ensures only { result ≡ true → IsStopped N.declaration N.script self.now.history self.now.open_inputs }
        ensures all { IsStopped N.declaration N.script self.now.history self.now.open_inputs → result ≡ true }
    {
        let inputs = self.inputs.as_slice();
        if any(inputs) {
            return false;
        }
        if self.mailboxes.next_control().is_some() {
            return false;
        }
        self.mailboxes.pick(decl, inputs, inputs).is_none()
    }

    /// Whether some actor is held.
    pub fn is_any_held(&self) -> bool
        ensures { result ≡ has_any self.now.held }
    {
        any(self.held.as_slice())
    }

    /// Whether an actor is held.
    pub fn is_held(&self, actor: u8) -> bool
        ensures { result ≡ is_held self.now.held actor }
    {
        is_set(self.held.as_slice(), actor)
    }
}
