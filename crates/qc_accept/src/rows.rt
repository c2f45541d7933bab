//! The rows of a type.

ghost use Rattle.std.specs.Prelude.{◌≡◌, ◌≤◌, length};
ghost use Rattle.qc_accept.specs.Answers.{IsReading};
ghost use Rattle.qc_accept.specs.Types.{AreFew, rows_in, row_in, number_or_unknown};
ghost use Rattle.qc_accept.specs.Views.{data_of, names_in, words_in};

use crate::fault::Wrong;
use crate::kinds::Words;
use crate::names::Index;
use crate::{fields, words};
use qc_list::{List, OutOfMemory};
use qc_table::Row;
use std::alloc::Global;
use toml::Value;

/// The number of a name that the type doesn't have. Tables refuse it as
/// unknown.
const UNKNOWN: u8 = 255;

/// The rows that an array's items are.
pub(crate) fn rows(alloc: Global, words: &Words<'_>, items: &[Value]) -> Result<List<Row>, Wrong>
    requires { AreFew (words_in words.now) }
    ensures { IsReading (λ rows. rows) result (rows_in (words_in words.now) (data_of items.now)) }
{
    let mut rows = List::new(alloc);
    for item in items {
        rows.push(row(words, fields::text(item)?).ok_or(Wrong::Form)?)?;
    }
    Ok(rows)
}

/// The row that a text is, as `STATE INV RESP NEXT`.
fn row(words: &Words<'_>, text: &str) -> Option<Row>
    requires { AreFew (words_in words.now) }
    ensures { result ≡ row_in (words_in words.now) text.now }
{
    let (state, inv, resp, next) = words::four(text)?;
    Some(Row {
        state: number_or_unknown(&words.states, state)?,
        inv: number_or_unknown(&words.invs, inv)?,
        resp: number_or_unknown(&words.resps, resp)?,
        next: number_or_unknown(&words.states, next)?,
    })
}

/// The number of a name, or the unknown one where no such name is declared.
fn number_or_unknown(names: &Index<'_>, name: &str) -> Option<u8>
    requires { length (names_in names.now) ≤ 256 }
    ensures { result ≡ number_or_unknown (names_in names.now) name.now }
{
    if !words::is_name(name) {
        return None;
    }
    Some(names.number(name).unwrap_or(UNKNOWN))
}
