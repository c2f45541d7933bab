//! What the actors of a script are asked.

ghost use Rattle.std.specs.Prelude.{◌≡◌, ◌++◌, OnOk, IfOk};
ghost use Rattle.qc_text.specs.Asked.{command_text, commands_of};

use crate::names::{invocation_name, object_name};
use crate::piece::{Piece, put_all};
use qc_decl::Declaration;
use qc_list::{OutOfMemory, Page};
use qc_msg::Command;
use qc_script::{CommandLine, Script};
use std::alloc::Global;

/// All commands of a script, in its order.
pub(crate) fn commands_of(alloc: Global, script: &Script) -> Result<Vec<CommandLine>, OutOfMemory>
    ensures { IfOk result (λ v. v.items ≡ commands_of script.now) }
{
    let mut commands = Vec::new(alloc);
    'phases: for phase in script.phases.items() {
        commands.extend_from_slice(phase.commands.items())?;
    }
    Ok(commands)
}

/// Adds what is asked.
pub(crate) fn put_command(
    page: &mut Page,
    decl: &Declaration,
    command: Command,
) -> Result<(), OutOfMemory>
    ensures { OnOk result (page.new ≡ page.old ++ command_text decl.now command) }
{
    match command {
        Command::Begin => page.put("begin"),
        Command::Do { object, inv } => put_all(
            page,
            &[
                Piece::Words(object_name(decl, object as usize)),
                Piece::Words(" "),
                Piece::Words(invocation_name(decl, object as usize, inv)),
            ],
        ),
        Command::Commit => page.put("commit"),
        Command::Abort => page.put("abort"),
        Command::Epoch { number } => {
            put_all(
                page,
                &[Piece::Words("epoch "), Piece::Number(number as u64)],
            )
        }
    }
}
