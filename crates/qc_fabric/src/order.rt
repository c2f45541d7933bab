//! What the controller does: the next phase begins, and control lines act.

ghost use Rattle.std.specs.Prelude.{◌≡◌, Some, None, IsSome, OnOk, OnErr, slice_get};
ghost use Rattle.qc_decl.specs.Actors.{controller};
ghost use Rattle.qc_msg.specs.declared.step.Control.TheVariants.{Phase};
ghost use Rattle.qc_pass.specs.Tokens.{number, pass_table};
ghost use Rattle.qc_script.specs.Ready.{controls_left, phase_of, step_of_control};
ghost use Rattle.qc_fabric.specs.Controls.{IsControllers, MayDo};
ghost use Rattle.qc_fabric.specs.Logs.{full_of};
ghost use Rattle.qc_fabric.specs.Tells.{Does};

use crate::conduct::{Conduct, RunName};
use crate::feed::add;
use crate::room::more;
use crate::state::FabricState;
use qc_list::OutOfMemory;
use qc_msg::{Control, Step};
use qc_pass::Pass;
use std::alloc::AllocError;

impl<C: Conduct, N: RunName> FabricState<C, N> {
    /// The number of the phase: of the last that began, or 0. It takes no memory.
    pub fn phase(&self) -> u32
        ensures { result ≡ phase_of self.now.history }
    {
        self.phase
    }

    /// The first control line left of the phase. It takes no memory.
    pub fn next_control(&self) -> Option<Control>
        ensures { result ≡ slice_get (controls_left N.script self.now.history) 0 }
    {
        self.mailboxes.next_control()
    }

    /// The controller does what comes next and takes no actor's pass, while no limit
    /// is reached: the next phase, or a line that cuts or heals. After want of memory
    /// nothing has changed.
    pub fn order(&mut self, pass: &mut Pass<Step>, control: Control) -> Result<(), OutOfMemory>
        requires table { pass_table pass.old ≡ N.table }
        requires controller { number pass.old ≡ controller N.declaration }
        requires controllers { IsControllers control }
        requires may { MayDo N.declaration N.script self.old.history self.old.open_inputs control }
        ensures ok { OnOk result
            (Does N.declaration pass.old pass.new self.old.history self.new.history control) }
        ensures same { (self.new.open_inputs ≡ self.old.open_inputs) × (self.new.held ≡ self.old.held) }
        ensures spare { self.new.spare ≡ self.old.spare }
        ensures err { OnErr result ((self.new ≡ self.old) × (pass.new ≡ pass.old)) }
    {
        match control {
            Control::Phase(number) => self.begin_phase(pass, number),
            Control::Cut(_, _) | Control::Heal(_, _) => self.act(pass, control),
            Control::Armed { .. } | Control::Crash(_) | Control::Restart(_) => unreachable!(),
        }
    }

    /// The next phase begins.
    fn begin_phase(&mut self, pass: &mut Pass<Step>, phase: u32) -> Result<(), OutOfMemory>
        requires table { pass_table pass.old ≡ N.table }
        requires controller { number pass.old ≡ controller N.declaration }
        requires may { MayDo N.declaration N.script self.old.history self.old.open_inputs (Phase phase) }
        ensures ok { OnOk result
            (Does N.declaration pass.old pass.new self.old.history self.new.history (Phase phase)) }
        ensures same { (self.new.open_inputs ≡ self.old.open_inputs) × (self.new.held ≡ self.old.held) }
        ensures spare { self.new.spare ≡ self.old.spare }
        ensures err { OnErr result ((self.new ≡ self.old) × (pass.new ≡ pass.old)) }
    {
        let Some(room) = more(self.log.steps(), self.reserved, self.spare, 1) else {
            return Err(AllocError);
        };
        self.log.reserve(room)?;
        let lines = &self.script.phases.items()[self.phase as usize];
        self.mailboxes.begin_phase(lines)?;
        let Some(right) = self.right.take() else {
            unreachable!()
        };
        let right = add(&self.passes, right, &mut self.log, pass, Step::Phase(phase));
        self.phase = phase;
        self.right = Some(right);
        Ok(())
    }

    /// The first control line left acts, one that cuts or heals.
    fn act(&mut self, pass: &mut Pass<Step>, line: Control) -> Result<(), OutOfMemory>
        requires table { pass_table pass.old ≡ N.table }
        requires controller { number pass.old ≡ controller N.declaration }
        requires first { slice_get (controls_left N.script self.old.history) 0 ≡ Some line }
        requires below { full_of self.old.history ≡ None }
        requires step { IsSome (step_of_control line) }
        ensures ok { OnOk result
            (Does N.declaration pass.old pass.new self.old.history self.new.history line) }
        ensures same { (self.new.open_inputs ≡ self.old.open_inputs) × (self.new.held ≡ self.old.held) }
        ensures spare { self.new.spare ≡ self.old.spare }
        ensures err { OnErr result ((self.new ≡ self.old) × (pass.new ≡ pass.old)) }
    {
        let Some(room) = more(self.log.steps(), self.reserved, self.spare, 1) else {
            return Err(AllocError);
        };
        self.log.reserve(room)?;
        self.mailboxes.control();
        let Some(right) = self.right.take() else {
            unreachable!()
        };
        let step = step_of(line);
        let right = add(&self.passes, right, &mut self.log, pass, step);
        self.right = Some(right);
        Ok(())
    }
}

/// The step of a control line that has one.
fn step_of(line: Control) -> Step
    requires { IsSome (step_of_control line) }
    ensures { step_of_control line ≡ Some result }
{
    match line {
        Control::Cut(a, b) => Step::Cut(a, b),
        Control::Heal(a, b) => Step::Heal(a, b),
        Control::Phase(_) | Control::Armed { .. } | Control::Crash(_) | Control::Restart(_) => {
            unreachable!()
        }
    }
}
