//! Which triples of a list stand nowhere before. An equal one that stands
//! before a triple covers what it covers, and has the faults that it has.

ghost use Rattle.std.specs.Prelude.{◌≡◌, IfOk};
ghost use Rattle.qc_cert.specs.Firsts.{firsts};

use crate::triple::Triple;
use qc_list::OutOfMemory;
use std::alloc::Global;
use std::collections::BTreeSet;

/// For each triple, whether no equal one stands before it. The set of those
/// seen is in order, so that no list makes a look-up long.
pub(crate) fn firsts(alloc: Global, list: &[Triple]) -> Result<Vec<bool>, OutOfMemory>
    ensures { IfOk result (λ v. v.items ≡ firsts list.now) }
{
    let mut seen = BTreeSet::new(alloc);
    let mut firsts = Vec::new(alloc);
    'triples: for triple in list {
        let is_first = seen.insert(*triple)?;
        firsts.push(is_first)?;
    }
    Ok(firsts)
}
