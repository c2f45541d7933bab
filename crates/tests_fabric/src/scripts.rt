//! Scripts for the tests.

ghost use Rattle.std.specs.Prelude.{◌≡◌, ◌≤◌, IfOk, length};
ghost use Rattle.qc_decl.specs.Accepted.{IsAccepted};
ghost use Rattle.qc_decl.specs.Limits.{most_script_bytes};
ghost use Rattle.qc_decl.specs.Named.{IsNamed};
ghost use Rattle.qc_script.specs.Sound.{IsScriptFor};

use qc_decl::Declaration;
use qc_script::{Script, ScriptFault, read_script, scripts_name_what_is_declared};
use std::alloc::Global;

/// A script of the declaration.
pub fn script_of(alloc: Global, bytes: &[u8], decl: &Declaration) -> Result<Script, ScriptFault>
    requires few { length bytes.now ≤ most_script_bytes }
    requires accepted { IsAccepted decl.now }
    requires named { IsNamed decl.now }
    ensures { IfOk result (IsScriptFor decl.now) }
{
    scripts_name_what_is_declared();
    read_script(alloc, bytes, decl)
}
