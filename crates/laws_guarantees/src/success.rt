//! Laws of the replies of undisturbed runs, each the contract of a function with
//! nothing to do.

ghost use Rattle.std.specs.Prelude.{◌*◌, ◌≤◌, Bool, List};
ghost use Rattle.qc_core.specs.Conduct.{IsLawful};
ghost use Rattle.qc_decl.specs.Accepted.{IsAccepted};
ghost use Rattle.qc_decl.specs.Limits.{most_committed_operations};
ghost use Rattle.qc_decl.specs.declared.declaration.Declaration.{Declaration};
ghost use Rattle.laws_turns.specs.Asked.{AsksDeclared};
ghost use Rattle.qc_msg.specs.Counts.{operations_of};
ghost use Rattle.qc_msg.specs.Steps.{Entry};
ghost use Rattle.qc_script.specs.Runs.{Runs};
ghost use Rattle.qc_script.specs.Sound.{IsScriptFor};
ghost use Rattle.qc_script.specs.declared.script.Script.{Script};
ghost use Rattle.laws_guarantees.specs.Succeeds.{CommitsSucceed, DosSucceed};
ghost use Rattle.laws_guarantees.specs.Undisturbed.{IsUndisturbed};

/// Each `do` of a begun transaction that isn't doomed and has room is told its
/// response, or that none is legal, or a transaction that is in its way: one of
/// another client, which that one began in an earlier phase and which hasn't
/// ended. So no `do` is short of a quorum, and none finds an epoch closed.
#[tactic(auto, using(crate::proofs::Dos::undisturbed_dos_succeed))]
pub fn undisturbed_dos_succeed()
    ensures { (decl : Declaration) (script : Script) → IsAccepted decl → AsksDeclared decl script
        → IsUndisturbed script → (h : List Entry) (open_inputs : List Bool)
        → Runs (IsLawful decl) decl script h open_inputs → DosSucceed decl h }
{}

/// Each commit of a begun transaction that isn't doomed commits, in a run that
/// has committed at most twice as many operations as the limit.
#[tactic(auto, using(crate::proofs::Commits::undisturbed_commits_succeed))]
pub fn undisturbed_commits_succeed()
    ensures { (decl : Declaration) (script : Script) → IsAccepted decl → IsScriptFor decl script
        → IsUndisturbed script → (h : List Entry) (open_inputs : List Bool)
        → Runs (IsLawful decl) decl script h open_inputs
        → operations_of h ≤ 2 * most_committed_operations → CommitsSucceed decl h }
{}
