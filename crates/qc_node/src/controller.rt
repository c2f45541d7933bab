//! The controller, with its pass.

ghost use Rattle.std.specs.Prelude.{◌≡◌, ◌<◌, OnErr, OnOk};
ghost use Rattle.qc_decl.specs.Actors.{actors, controller};
ghost use Rattle.qc_msg.specs.declared.step.Control.TheVariants.{Armed};
ghost use Rattle.qc_pass.specs.Tokens.{number, pass_table};
ghost use Rattle.qc_fabric.specs.ActorLines.{Arms};
ghost use Rattle.qc_fabric.specs.Controls.{MayDo};

use crate::rules::Rules;
use qc_decl::Declaration;
use qc_fabric::{Fabric, FabricState, RunName};
use qc_list::OutOfMemory;
use qc_msg::Step;
use qc_outside::ArmKind;
use qc_pass::Pass;
use std::marker::{Model, PhantomData};
use std::sync::Wait;

/// The controller's pass.
#[derive(Drop)]
pub(crate) struct Controller<N: RunName> {
    pass: Pass<Step>,
    of: PhantomData<N>,
}

impl<N: RunName> Model for Controller<N> {
    ghost use Rattle.std.specs.Prelude.{◌≡◌};
    ghost use Rattle.qc_decl.specs.Actors.{controller};
    ghost use Rattle.qc_msg.specs.declared.step.Step.{Step};
    ghost use Rattle.qc_pass.specs.Tokens.{number, pass_table};
    ghost use Rattle.qc_pass.specs.declared.token.Pass.{Pass};

    ghost Value = { Pass Step };

    ghost view = { λ c. c.pass };

    ghost invariant = { λ c. (pass_table c.pass ≡ N.table) × (number c.pass ≡ controller N.declaration) };
}

impl<N: RunName> Controller<N> {
    /// The controller of this pass.
    pub(crate) fn new(pass: Pass<Step>) -> Controller<N>
        requires table { pass_table pass ≡ N.table }
        requires controller { number pass ≡ controller N.declaration }
    {
        Controller {
            pass,
            of: PhantomData,
        }
    }

    /// It does what it may do next, in phases up to the last one that is given: a
    /// phase begins, or a line of its own acts. Whether something is left.
    pub(crate) fn act<R: Wait>(
        &mut self,
        rt: &R,
        decl: &Declaration,
        fabric: &Fabric<Rules, N>,
        last: u32,
    ) -> Result<bool, OutOfMemory>
        requires { decl.now ≡ N.declaration }
    {
        fabric.advance(rt, decl, &mut self.pass, last)
    }

    /// It arms a fault for the disk of this pass's actor, by the control line that
    /// is next.
    pub(crate) fn arm(
        &mut self,
        state: &mut FabricState<Rules, N>,
        pass: &mut Pass<Step>,
        kind: ArmKind,
        at: u32,
    ) -> Result<(), OutOfMemory>
        requires table { pass_table pass.old ≡ N.table }
        requires actor { number pass.old < actors N.declaration }
        requires may { MayDo N.declaration N.script state.old.history state.old.open_inputs
            (Armed (number pass.old) kind at) }
        ensures ok { OnOk result
            (Arms N.declaration pass.old pass.new state.old.history state.new.history kind at) }
        ensures err { OnErr result (pass.new ≡ pass.old) }
    {
        state.arm(&mut self.pass, pass, kind, at)
    }
}
