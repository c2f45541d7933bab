//! That the scripts which are read ask what the laws of runs want of them: laws
//! as contracts of functions with nothing to do.

ghost use Rattle.std.specs.Prelude.{◌≡◌, ℕ, List, Ok};
ghost use Rattle.qc_decl.specs.Accepted.{IsAccepted};
ghost use Rattle.qc_decl.specs.declared.declaration.Declaration.{Declaration};
ghost use Rattle.laws_turns.specs.Asked.{AsksDeclared};
ghost use Rattle.qc_script.specs.Grammar.{script_of};
ghost use Rattle.qc_script.specs.Sound.{IsScriptFor};
ghost use Rattle.qc_script.specs.declared.script.Script.{Script};

/// A script that names what an accepted declaration declares asks for declared
/// objects alone, and no client to move an epoch.
#[tactic(auto, using(crate::proofs::AccountDeclared::scripts_ask_what_is_declared))]
pub fn scripts_ask_what_is_declared()
    ensures { (decl : Declaration) (script : Script)
        → IsAccepted decl → IsScriptFor decl script → AsksDeclared decl script }
{}

/// So does each script that is read for such a declaration.
#[tactic(auto, using(crate::proofs::AccountDeclared::read_scripts_ask_what_is_declared))]
pub fn read_scripts_ask_what_is_declared()
    ensures { (decl : Declaration) (bytes : List ℕ) (script : Script)
        → IsAccepted decl → script_of decl bytes ≡ Ok script → AsksDeclared decl script }
{}
