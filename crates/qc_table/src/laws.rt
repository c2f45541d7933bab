//! Laws of tables, for every row and every run.

ghost use Rattle.std.specs.Prelude.{◌≡◌, ℕ, ◌<◌, ◌++◌, Option, Some, List, length, IsSome};
ghost use Rattle.qc_table.specs.declared.row.Row.{Row};
ghost use Rattle.qc_table.specs.Rules.{events_of};
ghost use Rattle.qc_table.specs.Run.{step_of, first_of, reached};

/// A run over two lists of events is the run over the second, from where the
/// first one leads.
pub fn runs_join()
    ensures { (step : ℕ → ℕ → Option ℕ) (state : Option ℕ) (front back : List ℕ)
        → reached step state (front ++ back) ≡ reached step (reached step state front) back }
{}

/// What `first` answers is the number of an event.
pub fn first_is_an_event()
    ensures { (rows : List Row) (state inv number : ℕ)
        → first_of rows state inv ≡ Some number → number < length (events_of rows) }
{}

/// What `first` answers leads on from that state.
pub fn first_leads_on()
    ensures { (rows : List Row) (state inv number : ℕ)
        → first_of rows state inv ≡ Some number → IsSome (step_of rows state number) }
{}
