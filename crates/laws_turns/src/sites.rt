//! Laws of sites, each the contract of a function with nothing to do.

ghost use Rattle.std.specs.Prelude.{◌≡◌, ◌<◌, ℕ, Bool, List, [], Some, true, false, slice_get};
ghost use Rattle.std.specs.List.{AllByRecursion as Every};
ghost use Rattle.qc_core.specs.Conduct.{IsLawful};
ghost use Rattle.qc_core.specs.Sites.{IsShown, IsStamped, Serves};
ghost use Rattle.qc_decl.specs.declared.declaration.Declaration.{Declaration};
ghost use Rattle.qc_msg.specs.Deeds.{deeds, mail};
ghost use Rattle.qc_msg.specs.Steps.{Entry};
ghost use Rattle.qc_msg.specs.declared.message.Envelope.{Envelope};
ghost use Rattle.qc_promise.specs.SiteDue.{AreDue};
ghost use Rattle.qc_script.specs.Runs.{Runs};
ghost use Rattle.qc_script.specs.declared.script.Script.{Script};
ghost use Rattle.qc_site.specs.Conduct.{site_after};

/// Each Decision Committed names a stamp of its transaction's own client.
#[tactic(auto, using(crate::proofs::Mailed::decisions_name_stamps_of_their_clients))]
pub fn decisions_name_stamps_of_their_clients()
    ensures { (decl : Declaration) (script : Script) (h : List Entry) (open_inputs : List Bool)
        → Runs (IsLawful decl) decl script h open_inputs
        → Every (λ (e : Envelope). IsStamped e.message) (mail h) }
{}

/// A site without an open input has taken inputs and posted its turn after
/// each, and it is up.
#[tactic(auto, using(crate::proofs::Served::sites_serve))]
pub fn sites_serve()
    ensures { (decl : Declaration) (script : Script) (h : List Entry) (open_inputs : List Bool)
        → Runs (IsLawful decl) decl script h open_inputs → (site : ℕ) → site < decl.sites
        → slice_get open_inputs site ≡ Some false → Serves decl site (deeds site [] h) true }
{}

/// All that such a site is, its own steps show.
#[tactic(auto, using(crate::proofs::Served::sites_are_what_their_steps_show))]
pub fn sites_are_what_their_steps_show()
    ensures { (decl : Declaration) (script : Script) (h : List Entry) (open_inputs : List Bool)
        → Runs (IsLawful decl) decl script h open_inputs → (site : ℕ) → site < decl.sites
        → slice_get open_inputs site ≡ Some false
        → IsShown (deeds site [] h) (site_after decl site (deeds site [] h)).site }
{}

/// What a site sends for each input is due, and so is what it writes: in every
/// run, whether the site has an open input or not.
#[tactic(auto, using(crate::proofs::Served::what_sites_post_is_due))]
pub fn what_sites_post_is_due()
    ensures { (decl : Declaration) (script : Script) (h : List Entry) (open_inputs : List Bool)
        → Runs (IsLawful decl) decl script h open_inputs → (site : ℕ) → site < decl.sites
        → AreDue decl [] (deeds site [] h) }
{}
