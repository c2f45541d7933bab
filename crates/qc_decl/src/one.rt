//! The built-in declarations `@one` and `@three`.

ghost use Rattle.std.specs.Prelude.{◌≡◌, [], ◌∷◌, map, IfOk, IfSome};
ghost use Rattle.qc_decl.specs.Accepted.{IsAccepted};
ghost use Rattle.qc_decl.specs.Named.{IsNamed};
ghost use Rattle.qc_table.specs.Depends.{relation_of};
ghost use Rattle.qc_decl.specs.One.{built_in_of, register, register_plan, register_store, register_names};
ghost use Rattle.qc_decl.specs.One.{register_pairs, register_rows, row as row_of};

use crate::declaration::{Declaration, KindNames, Names};
use qc_list::{List, Name, OutOfMemory};
use qc_plan::{Needs, Plan};
use qc_table::{Kind, Pair, Relation, Row, Table, TableFault};
use std::alloc::{AllocError, Global};

/// The built-in declaration of this name, or `None` where there is none.
/// `@one` is one site, one client, and a register over 0 and 1 named `x`;
/// `@three` is the same with three sites and three clients, where each quorum
/// is two of the sites. Both keep the rules of accepted declarations.
#[tactic(auto, using(crate::proofs::BuiltInRules::one_accepted, crate::proofs::BuiltInRules::three_accepted))]
pub fn built_in(alloc: Global, name: &str) -> Result<Option<Declaration>, OutOfMemory>
    ensures built { IfOk result (λ d. d ≡ built_in_of name.now) }
    ensures accepted { IfOk result (λ d. IfSome d IsAccepted) }
    ensures named { IfOk result (λ d. IfSome d IsNamed) }
{
    if name == "@one" {
        return Ok(Some(register_store(alloc, 1, &[1], 1)?));
    }
    if name == "@three" {
        return Ok(Some(register_store(alloc, 3, &[1, 1, 1], 2)?));
    }
    Ok(None)
}

/// A register `x` on so many sites, with so many clients. The sites have these
/// weights, and each quorum weighs `need`.
fn register_store(
    alloc: Global,
    actors: u8,
    weights: &[u8],
    need: u16,
) -> Result<Declaration, OutOfMemory>
    ensures { IfOk result (λ d. d ≡ register_store actors weights.now need) }
{
    Ok(Declaration {
        sites: actors,
        clients: actors,
        kinds: single(
            alloc,
            Kind {
                table: register_table(alloc)?,
                relation: register_relation(),
            },
        )?,
        objects: single(alloc, 0)?,
        plans: single(alloc, plan(alloc, weights, need)?)?,
        kind_names: single(alloc, kind_names(alloc)?)?,
        object_names: names(alloc, &["x"])?,
    })
}

/// The register's table.
fn register_table(alloc: Global) -> Result<Table, OutOfMemory>
    ensures { IfOk result (λ t. t ≡ register) }
{
    match Table::new(alloc, 2, 3, 3, 0, &rows()) {
        Ok(table) => Ok(table),
        Err(TableFault::OutOfMemory) => Err(AllocError),
        Err(_) => unreachable!(),
    }
}

/// The register's relation: R depends on what was written.
fn register_relation() -> Relation
    ensures { result ≡ relation_of register_pairs }
{
    Relation::new(&[Pair { inv: 0, event: 2 }, Pair { inv: 0, event: 3 }])
}

/// The register's rows: R answers the state, W0 and W1 answer ok and set it.
fn rows() -> [Row; 6]
    ensures { result ≡ register_rows }
{
    [
        row(0, 0, 0, 0),
        row(1, 0, 1, 1),
        row(0, 1, 2, 0),
        row(1, 1, 2, 0),
        row(0, 2, 2, 1),
        row(1, 2, 2, 1),
    ]
}

/// A row of a table.
fn row(state: u8, inv: u8, resp: u8, next: u8) -> Row
    ensures { result ≡ row_of state inv resp next }
{
    Row {
        state,
        inv,
        resp,
        next,
    }
}

/// The names of the register and of its parts.
fn kind_names(alloc: Global) -> Result<KindNames, OutOfMemory>
    ensures { IfOk result (λ n. n ≡ register_names) }
{
    Ok(KindNames {
        name: Name::new(alloc, "register")?,
        states: names(alloc, &["0", "1"])?,
        invs: names(alloc, &["R", "W0", "W1"])?,
        resps: names(alloc, &["0", "1", "ok"])?,
    })
}

/// The plan of the one epoch: R needs so much weight of sites to read, and W0
/// and W1 need it to append.
fn plan(alloc: Global, weights: &[u8], need: u16) -> Result<Plan, OutOfMemory>
    ensures { IfOk result (λ p. p ≡ register_plan weights.now need) }
{
    Ok(Plan {
        weights: List::from_slice(alloc, weights)?,
        initial: needs(alloc, &[need, 0, 0])?,
        last: needs(alloc, &[0, 0, need, need])?,
    })
}

/// The thresholds of one object.
fn needs(alloc: Global, thresholds: &[u16]) -> Result<Needs, OutOfMemory>
    ensures { IfOk result (λ needs. needs ≡ thresholds.now ∷ []) }
{
    single(alloc, List::from_slice(alloc, thresholds)?)
}

/// These names, in their order.
fn names(alloc: Global, texts: &[&str]) -> Result<Names, OutOfMemory>
    ensures { IfOk result (λ names. names ≡ map (λ t. t.now) texts.now) }
{
    let mut names = List::new(alloc);
    for text in texts {
        names.push(Name::new(alloc, text)?)?;
    }
    Ok(names)
}

/// A list of one item.
fn single<T: Drop>(alloc: Global, item: T) -> Result<List<T>, OutOfMemory>
    ensures { IfOk result (λ list. list ≡ item ∷ []) }
{
    let mut list = List::new(alloc);
    list.push(item)?;
    Ok(list)
}
