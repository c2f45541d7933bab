//! Laws of what stands still in undisturbed runs, each the contract of a function
//! with nothing to do.

ghost use Rattle.std.specs.List.{AllByRecursion as Every};
ghost use Rattle.std.specs.Prelude.{◌≡◌, ◌⊎◌, ℕ, Bool, true, List, [], Some};
ghost use Rattle.qc_core.specs.Conduct.{IsLawful};
ghost use Rattle.qc_decl.specs.Accepted.{IsAccepted};
ghost use Rattle.qc_decl.specs.Actors.{client_actor, is_client};
ghost use Rattle.qc_decl.specs.declared.declaration.Declaration.{Declaration};
ghost use Rattle.laws_turns.specs.Asked.{AsksDeclared};
ghost use Rattle.qc_lock.specs.declared.held.Held.{Held};
ghost use Rattle.qc_msg.specs.Deeds.{deeds};
ghost use Rattle.qc_msg.specs.Steps.{Entry};
ghost use Rattle.qc_script.specs.Inbox.{inbox};
ghost use Rattle.qc_script.specs.Runs.{Runs};
ghost use Rattle.qc_script.specs.declared.script.Script.{Script};
ghost use Rattle.qc_site.specs.Conduct.{site_after};
ghost use Rattle.laws_guarantees.specs.Acting.{IsStill};
ghost use Rattle.laws_guarantees.specs.Elsewhere.{begun_by};
ghost use Rattle.laws_guarantees.specs.Undisturbed.{IsUndisturbed};

/// Where a site has taken all that was sent to it, as where a phase begins,
/// what it holds is of transactions that are begun and haven't ended.
#[tactic(auto, using(crate::proofs::AtRest::what_is_held_at_rest_is_begun))]
pub fn what_is_held_at_rest_is_begun()
    ensures { (decl : Declaration) (script : Script) → IsAccepted decl → AsksDeclared decl script
        → IsUndisturbed script → (h : List Entry) (open_inputs : List Bool)
        → Runs (IsLawful decl) decl script h open_inputs → (site : ℕ) → (inbox script site h).copies ≡ []
        → Every (λ (x : Held). begun_by decl (client_actor decl x.tx.client) h ≡ Some x.tx)
        (site_after decl site (deeds site [] h)).site.held }
{}

/// At most one client acts at a time. Of any two clients, one runs nothing, has
/// called all that the phases so far ask it, and has begun what it had before
/// this phase.
#[tactic(auto, using(crate::proofs::Still::one_client_acts_at_a_time))]
pub fn one_client_acts_at_a_time()
    ensures { (decl : Declaration) (script : Script) → IsAccepted decl → AsksDeclared decl script
        → IsUndisturbed script → (h : List Entry) (open_inputs : List Bool)
        → Runs (IsLawful decl) decl script h open_inputs → (c d : ℕ) → is_client decl c ≡ true
        → is_client decl d ≡ true → (c ≡ d → ⊥) → IsStill decl script c h ⊎ IsStill decl script d h }
{}
