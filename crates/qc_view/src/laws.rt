//! Laws of views, each the contract of a function with nothing to do.

ghost use Rattle.std.specs.Prelude.{◌≡◌, ℕ, Some, IsSome};
ghost use Rattle.qc_table.specs.Rules.{Rules};
ghost use Rattle.qc_table.specs.Run.{next_state, step_of};
ghost use Rattle.qc_view.specs.View.{with_own, state_in, answer_in};
ghost use Rattle.qc_view.specs.declared.view.View.{View};

/// An own event leads on from the state after all that the view had.
pub fn own_events_come_last()
    ensures { (rules : Rules) (view : View) (event : ℕ)
        → state_in rules (with_own view event) ≡ next_state (step_of rules.rows) (state_in rules view) event }
{}

/// What a view answers is legal after it: with this own event more, it has a
/// state.
pub fn answers_lead_on()
    ensures { (rules : Rules) (view : View) (inv event : ℕ)
        → answer_in rules view inv ≡ Some event → IsSome (state_in rules (with_own view event)) }
{}
