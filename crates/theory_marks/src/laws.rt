//! Laws of every run, each the contract of a function with nothing to do.

ghost use Rattle.std.specs.Prelude.{◌≡◌, List};
ghost use Rattle.qc_entry.specs.Log.{of_object, union};
ghost use Rattle.theory_marks.specs.Marks.{with_arrivals, log_of};
ghost use Rattle.theory_marks.specs.Exchange.{AppendRequest, ReadGrant};
ghost use Rattle.theory_marks.specs.Acts.{Act, Allowed, CountRead, IsRun, ServeAppend, counts_read, exchange};
ghost use Rattle.theory_marks.specs.Acts.{known_after};

/// What a client knows after it counted a Granted to a Read is the site's log
/// of the object at the turn that sent it.
#[tactic(auto, using(crate::proofs::Runs::known_logs_are_whole))]
pub fn known_logs_are_whole()
    ensures { (acts : List Act) (g : ReadGrant) → IsRun acts → Allowed (exchange acts) (CountRead g)
        → (known_after ((exchange acts).clients g.request.client) g).log
        ≡ log_of (of_object g.by.arrived g.request.object) }
{}

/// An Append that is granted brings the site to the very log, in the very order
/// of arrival, to which its client's whole view would bring it.
#[tactic(auto, using(crate::proofs::Runs::appends_bring_all))]
pub fn appends_bring_all()
    ensures { (acts : List Act) (a : AppendRequest) → IsRun acts → Allowed (exchange acts) (ServeAppend a)
        → with_arrivals ((exchange acts).sites a.site).arrived a.lines
        ≡ with_arrivals ((exchange acts).sites a.site).arrived a.view }
{}

/// The object's view gains the whole log that the site had.
#[tactic(auto, using(crate::proofs::Runs::views_gain_whole_logs))]
pub fn views_gain_whole_logs()
    ensures { (acts : List Act) (g : ReadGrant) → IsRun acts → Allowed (exchange acts) (CountRead g)
        → (counts_read ((exchange acts).clients g.request.client) g).view g.request.object
        ≡ union (((exchange acts).clients g.request.client).view g.request.object)
        (log_of (of_object g.by.arrived g.request.object)) }
{}
