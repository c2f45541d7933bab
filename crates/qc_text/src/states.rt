//! The section of states.

ghost use Rattle.std.specs.Prelude.{◌≡◌, ◌++◌, OnOk, option_map};
ghost use Rattle.qc_text.specs.States.{state_text, state_line, states_text};

use crate::names::{object_name, state_name};
use crate::piece::{Piece, put_all};
use qc_decl::Declaration;
use qc_list::{OutOfMemory, Page};

/// Adds the section of states, which are `None` where a step was missing.
pub(crate) fn put_states(
    page: &mut Page,
    decl: &Declaration,
    states: &Option<Vec<u8>>,
) -> Result<(), OutOfMemory>
    ensures { OnOk result (page.new ≡ page.old ++ states_text decl.now (option_map (λ v. v.items) states.now)) }
{
    page.put("states\n")?;
    'objects: for object in 0..decl.objects.items().len() {
        put_state(page, decl, states, object)?;
    }
    Ok(())
}

/// Adds an object's line.
fn put_state(
    page: &mut Page,
    decl: &Declaration,
    states: &Option<Vec<u8>>,
    object: usize,
) -> Result<(), OutOfMemory>
    ensures { OnOk result (page.new ≡ page.old ++ state_line decl.now (option_map (λ v. v.items) states.now) object) }
{
    put_all(
        page,
        &[
            Piece::Words(object_name(decl, object)),
            Piece::Words(" "),
            Piece::Words(state_text(decl, states, object)),
            Piece::Words("\n"),
        ],
    )
}

/// The name of an object's state, and `?` where a step was missing.
fn state_text<'a>(decl: &'a Declaration, states: &Option<Vec<u8>>, object: usize) -> &'a str
    ensures { result.now ≡ state_text decl.now (option_map (λ v. v.items) states.now) object }
{
    let Some(states) = states else {
        return "?";
    };
    match states.get(object) {
        Some(state) => state_name(decl, object, *state),
        None => "",
    }
}
