//! Laws of clocks, of every run, each the contract of a function with nothing
//! to do.

ghost use Rattle.std.specs.Prelude.{◌≡◌, ◌-◌, ◌<◌, ◌≤◌, ℕ, true, false, Bool, List, [], ◌∷◌, ◌++◌, Some, slice_get};
ghost use Rattle.qc_core.specs.Conduct.{IsLawful};
ghost use Rattle.qc_decl.specs.Accepted.{IsAccepted};
ghost use Rattle.qc_decl.specs.Actors.{is_client, is_site};
ghost use Rattle.qc_decl.specs.declared.declaration.Declaration.{Declaration};
ghost use Rattle.qc_entry.specs.declared.line.Line.{Line};
ghost use Rattle.qc_entry.specs.declared.record.Commit.{Commit};
ghost use Rattle.qc_list.specs.Members.{In};
ghost use Rattle.qc_msg.specs.declared.record.Record.TheVariants as records;
ghost use Rattle.qc_msg.specs.Deeds.{Deed, Writes, deeds};
ghost use Rattle.qc_msg.specs.Steps.{Entry};
ghost use Rattle.qc_promise.specs.SiteClocks.{clock_shown};
ghost use Rattle.qc_promise.specs.SiteLogs.{log_shown};
ghost use Rattle.qc_script.specs.Runs.{Runs};
ghost use Rattle.qc_script.specs.Sound.{IsScriptFor};
ghost use Rattle.qc_script.specs.declared.script.Script.{Script};
ghost use Rattle.qc_stamp.specs.declared.stamp.TxId.{TxId};
ghost use Rattle.laws_guarantees.specs.Clocks.{IsCounted};

/// The client's half of the clock law: the stamp of a commit record is above
/// the clock of each grant and of each promise that its client counted before
/// it wrote the record (Lamport 1978).
pub fn stamps_pass_what_was_counted()
    ensures { (decl : Declaration) (script : Script) (h : List Entry) (open_inputs : List Bool) (a : ℕ)
        (before after : List Deed) (c : Commit) (clock : ℕ) → Runs (IsLawful decl) decl script h open_inputs
        → is_client decl a ≡ true → deeds a [] h ≡ before ++ Writes (records.Commit c) ∷ after
        → IsCounted decl (a - decl.sites) before clock → clock < c.stamp.clock }
{}

/// The site's half of the clock law: the clock of a site without an open input
/// has passed the stamp of each line that it knows, and each Done that it
/// wrote. What it grants and promises tells this clock, as is due.
pub fn sites_clocks_pass_what_they_have()
    ensures lines { (decl : Declaration) (script : Script) (h : List Entry) (open_inputs : List Bool) (site : ℕ)
        (line : Line) → IsAccepted decl → IsScriptFor decl script → Runs (IsLawful decl) decl script h open_inputs
        → is_site decl site ≡ true → slice_get open_inputs site ≡ Some false
        → In line (log_shown (deeds site [] h)) → line.stamp.clock ≤ clock_shown (deeds site [] h) }
    ensures dones { (decl : Declaration) (script : Script) (h : List Entry) (open_inputs : List Bool) (site : ℕ)
        (tx : TxId) (clock : ℕ) → Runs (IsLawful decl) decl script h open_inputs → is_site decl site ≡ true
        → slice_get open_inputs site ≡ Some false → In (Writes (records.Done tx clock)) (deeds site [] h)
        → clock ≤ clock_shown (deeds site [] h) }
{}
