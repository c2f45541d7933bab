//! Laws of scripts, each the contract of a function with nothing to do.

ghost use Rattle.std.specs.Prelude.{◌≡◌, ℕ, List, Some, Ok, Err};
ghost use Rattle.qc_decl.specs.declared.declaration.Declaration.{Declaration};
ghost use Rattle.qc_script.specs.Sound.{IsScriptFor};
ghost use Rattle.qc_script.specs.Grammar.{Refusal, empty_script, item_in, read_words, script_of};
ghost use Rattle.qc_script.specs.Lines.{line_of};
ghost use Rattle.qc_script.specs.Refused.{IsFirstRefused};
ghost use Rattle.qc_script.specs.Text.{words_of};
ghost use Rattle.qc_script.specs.Written.{AreWritable, IsWritable, text_of_line, text_of_lines, with_written};
ghost use Rattle.qc_script.specs.declared.line.ScriptLine.{ScriptLine};
ghost use Rattle.qc_script.specs.declared.script.Script.{Script};

/// Each form of a line, as it is written, is read as just that line. So what it
/// asks for is left to its names and its numbers alone.
pub fn lines_are_read_as_written()
    ensures line { (line : ScriptLine) → IsWritable line → line_of (words_of (text_of_line line)) ≡ Some line }
    ensures item { (decl : Declaration) (line : ScriptLine) → IsWritable line
        → read_words decl (words_of (text_of_line line)) ≡ item_in decl line }
{}

/// A script that is written line by line is read as what its lines ask for, one
/// after another. So it is read where each line's names are declared, its
/// numbers are in range and it has a place.
pub fn scripts_are_read_as_written()
    ensures { (decl : Declaration) (lines : List ScriptLine) → AreWritable lines
        → script_of decl (text_of_lines lines) ≡ with_written decl 1 empty_script lines }
{}

/// A script is refused exactly where a line is that has only lines before it
/// that aren't; that line is named.
pub fn refused_scripts_have_a_first_refused_line()
    ensures has { (decl : Declaration) (bytes : List ℕ) (refusal : Refusal)
        → script_of decl bytes ≡ Err refusal → IsFirstRefused decl bytes refusal }
    ensures only { (decl : Declaration) (bytes : List ℕ) (refusal : Refusal)
        → IsFirstRefused decl bytes refusal → script_of decl bytes ≡ Err refusal }
{}

/// What a script names is declared, and its numbers are in range.
pub fn scripts_name_what_is_declared()
    ensures { (decl : Declaration) (bytes : List ℕ) (script : Script)
        → script_of decl bytes ≡ Ok script → IsScriptFor decl script }
{}
