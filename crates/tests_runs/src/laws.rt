//! What it means that a schedule runs, and that links treat senders and
//! receivers alike.

ghost use Rattle.std.specs.Prelude.{◌≡◌, ◌+◌, ◌<◌, ℕ, List, Some};
ghost use Rattle.qc_decl.specs.declared.declaration.Declaration.{Declaration};
ghost use Rattle.qc_link.specs.Fate.{fate};
ghost use Rattle.qc_msg.specs.Steps.{Entry};
ghost use Rattle.qc_script.specs.Inbox.{count_of, inbox};
ghost use Rattle.qc_script.specs.declared.script.Script.{Script};
ghost use Rattle.tests_histories.specs.Play.{Move};
ghost use Rattle.tests_runs.specs.Perform.{run_by};
ghost use Rattle.tests_runs.specs.Whole.{IsWholeRun};

/// What a schedule makes to the script's end is a whole run.
pub fn schedules_make_whole_runs()
    ensures { (decl : Declaration) (script : Script) (moves : List Move) (h : List Entry)
        → run_by decl script moves ≡ Some h → IsWholeRun decl script h }
{}

/// Every actor's inbox has the same cuts, and the same control lines that
/// haven't acted.
pub fn cuts_and_controls_are_everybodys()
    ensures cuts { (script : Script) (a b : ℕ) (h : List Entry) → a < 34 → b < 34
        → (inbox script a h).cuts ≡ (inbox script b h).cuts }
    ensures controls { (script : Script) (a b : ℕ) (h : List Entry) → a < 34 → b < 34
        → (inbox script a h).controls ≡ (inbox script b h).controls }
{}

/// The next message from one actor to another has one fate: its receiver's
/// inbox, which counts what came from the sender, gives the same as its
/// sender's, which counts what went to the receiver.
pub fn messages_have_one_fate()
    ensures { (script : Script) (from to : ℕ) (h : List Entry) → from < 34 → to < 34
        → fate script.links (inbox script to h).cuts from to (count_of (inbox script to h).from_each from + 1)
        ≡ fate script.links (inbox script from h).cuts from to (count_of (inbox script from h).to_each to + 1) }
{}
