//! The whole text of a run.

ghost use Rattle.std.specs.Prelude.{◌≡◌, IfOk};
ghost use Rattle.qc_text.specs.Text.{text_of};

use crate::committed::committed;
use crate::log::put_log;
use crate::replies::put_replies;
use crate::sites::put_sites;
use crate::states::put_states;
use qc_decl::Declaration;
use qc_list::{OutOfMemory, Page};
use qc_msg::History;
use qc_script::Script;
use std::alloc::Global;
use theory_onecopy::replay;

/// What is printed of a run: the replies in the script's order, the committed
/// transactions, the state of each object after them, and the sites.
pub fn text(
    alloc: Global,
    decl: &Declaration,
    script: &Script,
    history: &History,
) -> Result<Vec<u8>, OutOfMemory>
    ensures { IfOk result (λ v. v.items ≡ text_of decl.now script.now history.now) }
{
    let entries = history.items();
    let commits = committed(alloc, decl, entries)?;
    let states = replay(alloc, decl, &commits)?;
    let mut page = Page::new(alloc);
    put_replies(&mut page, alloc, decl, script, entries)?;
    put_log(&mut page, decl, &commits)?;
    put_states(&mut page, decl, &states)?;
    put_sites(&mut page, alloc, decl, entries)?;
    Ok(page.into_bytes())
}
