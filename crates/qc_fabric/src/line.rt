//! Control lines of an actor's act: one arms its disk, one crashes it.

ghost use Rattle.std.specs.Prelude.{◌≡◌, ◌<◌, OnOk, OnErr};
ghost use Rattle.qc_decl.specs.Actors.{actors, controller as controller_of};
ghost use Rattle.qc_msg.specs.declared.step.Control.TheVariants.{Armed, Crash};
ghost use Rattle.qc_pass.specs.Tokens.{number, pass_table};
ghost use Rattle.qc_fabric.specs.ActorLines.{Arms, FallsByLine};
ghost use Rattle.qc_fabric.specs.Controls.{MayDo};
ghost use Rattle.qc_fabric.specs.Tells.{IsSame};

use crate::conduct::{Conduct, RunName};
use crate::feed::add;
use crate::room::more;
use crate::state::FabricState;
use qc_list::OutOfMemory;
use qc_msg::{Fall, Step};
use qc_outside::ArmKind;
use qc_pass::Pass;
use std::alloc::AllocError;

impl<C: Conduct, N: RunName> FabricState<C, N> {
    /// The first control line left arms the disk of the pass's actor: a step of the
    /// controller's, which that pass sees at once. After want of memory nothing has
    /// changed.
    pub fn arm(
        &mut self,
        controller: &mut Pass<Step>,
        pass: &mut Pass<Step>,
        kind: ArmKind,
        at: u32,
    ) -> Result<(), OutOfMemory>
        requires tables { (pass_table controller.old ≡ N.table) × (pass_table pass.old ≡ N.table) }
        requires numbers { (number controller.old ≡ controller_of N.declaration)
            × (number pass.old < actors N.declaration) }
        requires may { MayDo N.declaration N.script self.old.history self.old.open_inputs
            (Armed (number pass.old) kind at) }
        ensures ok { OnOk result (Arms N.declaration pass.old pass.new self.old.history self.new.history kind at) }
        ensures controller { OnOk result (IsSame controller.old controller.new) }
        ensures same { (self.new.open_inputs ≡ self.old.open_inputs) × (self.new.held ≡ self.old.held) }
        ensures spare { self.new.spare ≡ self.old.spare }
        ensures err { OnErr result ((self.new ≡ self.old) × (pass.new ≡ pass.old)
            × (controller.new ≡ controller.old)) }
    {
        let kept = pass.room();
        let actor = pass.number();
        let Some(room) = more(self.log.steps(), self.reserved, self.spare, 1) else {
            return Err(AllocError);
        };
        self.log.reserve(room)?;
        self.mailboxes.control();
        let Some(right) = self.right.take() else {
            unreachable!()
        };
        let right = self.passes.look(pass, right, kept);
        let step = Step::Armed { actor, kind, at };
        let right = add(&self.passes, right, &mut self.log, controller, step);
        let right = self.passes.look(pass, right, kept);
        self.right = Some(right);
        Ok(())
    }

    /// The first control line left crashes the pass's actor, which falls. After want
    /// of memory nothing has changed.
    pub fn fall(&mut self, pass: &mut Pass<Step>) -> Result<(), OutOfMemory>
        requires table { pass_table pass.old ≡ N.table }
        requires actor { number pass.old < actors N.declaration }
        requires may { MayDo N.declaration N.script self.old.history self.old.open_inputs (Crash (number pass.old)) }
        ensures ok { OnOk result (FallsByLine (C.lawful N.declaration) (C.fits N.declaration) N.declaration N.script
            pass.old pass.new self.old.history self.new.history) }
        ensures same { (self.new.open_inputs ≡ self.old.open_inputs) × (self.new.held ≡ self.old.held) }
        ensures spare { self.new.spare ≡ self.old.spare }
        ensures err { OnErr result ((self.new ≡ self.old) × (pass.new ≡ pass.old)) }
    {
        let actor = pass.number();
        let Some(room) = more(self.log.steps(), self.reserved, self.spare, 1) else {
            return Err(AllocError);
        };
        self.log.reserve(room)?;
        self.mailboxes.fall(actor);
        self.mailboxes.end_line();
        let Some(right) = self.right.take() else {
            unreachable!()
        };
        let cause = Fall::Script;
        let step = Step::Fell {
            cause,
            pending: None,
        };
        let right = add(&self.passes, right, &mut self.log, pass, step);
        self.right = Some(right);
        Ok(())
    }
}
