//! The checks behind the fields: certificates and plans.

ghost use Rattle.std.specs.Prelude.{◌≡◌, ◌<◌, ◌≤◌, ◌++◌, [], ◌∷◌, length, All, IfOk, OnOk};
ghost use Rattle.qc_cert.specs.declared.triple.Triple.{Triple};
ghost use Rattle.qc_decl.specs.Limits.{most_triples};
ghost use Rattle.qc_accept.specs.Accept.{AreChecked, ArePlanned, IsShaped, admitted, all_admitted, all_certified};
ghost use Rattle.qc_accept.specs.Accept.{cert_names, certified, event_name, plan_names};
ghost use Rattle.qc_accept.specs.Answers.{IsAnswer};
ghost use Rattle.qc_accept.specs.Types.{name_at as name_of};
ghost use Rattle.qc_plan.specs.declared.fault.PlanFault.TheVariants.{CanMiss};
ghost use Rattle.qc_accept.specs.Views.{draft_in};

use crate::acceptance::Draft;
use crate::fault::DeclFault;
use crate::names::tell;
use qc_cert::{CertFault, Triple};
use qc_decl::{Declaration, KindNames, Names};
use qc_list::{List, Name, OutOfMemory};
use qc_plan::{Plan, PlanFault};
use qc_table::{Kind, Table};
use std::alloc::Global;

/// Checks that each type's triples show its relation exact.
pub(crate) fn check_types(alloc: Global, draft: &Draft) -> Result<(), DeclFault>
    requires { AreChecked (draft_in draft.now) }
    ensures { IsAnswer
        (λ _. tt) result (all_certified 0 draft.now.decl.kind_names draft.now.decl.kinds draft.now.triples) }
{
    let names = draft.decl.kind_names.items();
    let triples = draft.triples.items();
    for (place, kind) in draft.decl.kinds.items().iter().enumerate() {
        check_type(
            alloc,
            place as u8,
            &names[place],
            kind,
            triples[place].items(),
        )?;
    }
    Ok(())
}

/// Checks that a type's triples show its relation exact.
fn check_type(
    alloc: Global,
    number: u8,
    names: &KindNames,
    kind: &Kind,
    triples: &[Triple],
) -> Result<(), DeclFault>
    requires few { length triples.now ≤ most_triples }
    requires states { All (λ (t : Triple). (t.view < kind.now.table.states)
        × (t.log < kind.now.table.states)) triples.now }
    ensures { IsAnswer (λ _. tt) result (certified number names.now kind.now triples.now) }
{
    match qc_cert::check(alloc, kind, triples) {
        Ok(()) => Ok(()),
        Err(CertFault::OutOfMemory) => Err(DeclFault::OutOfMemory),
        Err(fault) => Err(DeclFault::Cert {
            kind: number,
            fault,
            names: cert_names(alloc, names, kind, fault)?,
        }),
    }
}

/// The names that the text of a certificate's fault has.
fn cert_names(
    alloc: Global,
    names: &KindNames,
    kind: &Kind,
    fault: CertFault,
) -> Result<Names, OutOfMemory>
    ensures { IfOk result (λ told. told ≡ cert_names names.now kind.now fault) }
{
    let mut told = List::new(alloc);
    tell_cert(alloc, &mut told, names, kind, fault)?;
    Ok(told)
}

/// Tells the names that the text of a certificate's fault has.
fn tell_cert(
    alloc: Global,
    told: &mut Names,
    names: &KindNames,
    kind: &Kind,
    fault: CertFault,
) -> Result<(), OutOfMemory>
    requires { told.old ≡ [] }
    ensures { OnOk result (told.new ≡ cert_names names.now kind.now fault) }
{
    tell(alloc, told, names.name.text())?;
    match fault {
        CertFault::Uncovered { event, .. } => tell_event(alloc, told, names, &kind.table, event),
        CertFault::Unequal { inv, resp, .. } => {
            tell(alloc, told, name_at(&names.invs, inv))?;
            tell(alloc, told, name_at(&names.resps, resp))
        }
        CertFault::NoStart | CertFault::OutOfMemory => Ok(()),
    }
}

/// Checks that each epoch's plan is admitted.
pub(crate) fn check_plans(alloc: Global, decl: &Declaration) -> Result<(), DeclFault>
    requires { ArePlanned decl.now }
    ensures { IsAnswer (λ _. tt) result (all_admitted decl.now 1 decl.now.plans) }
{
    for (place, plan) in decl.plans.items().iter().enumerate() {
        check_plan(alloc, decl, place as u8 + 1, plan)?;
    }
    Ok(())
}

/// Checks that an epoch's plan is admitted.
fn check_plan(alloc: Global, decl: &Declaration, epoch: u8, plan: &Plan) -> Result<(), DeclFault>
    requires plan { IsShaped decl.now plan.now }
    requires objects { length decl.now.objects ≤ 256 }
    ensures { IsAnswer (λ _. tt) result (admitted decl.now epoch plan.now) }
{
    match qc_plan::admit(plan, decl.kinds.items(), decl.objects.items()) {
        Ok(()) => Ok(()),
        Err(fault) => Err(DeclFault::Plan {
            epoch,
            fault,
            names: plan_names(alloc, decl, fault)?,
        }),
    }
}

/// The names that the text of a plan's fault has.
fn plan_names(alloc: Global, decl: &Declaration, fault: PlanFault) -> Result<Names, OutOfMemory>
    ensures { IfOk result (λ told. told ≡ plan_names decl.now fault) }
{
    let mut told = List::new(alloc);
    tell_plan(alloc, &mut told, decl, fault)?;
    Ok(told)
}

/// Tells the names that the text of a plan's fault has.
fn tell_plan(
    alloc: Global,
    told: &mut Names,
    decl: &Declaration,
    fault: PlanFault,
) -> Result<(), OutOfMemory>
    requires { told.old ≡ [] }
    ensures { OnOk result (told.new ≡ plan_names decl.now fault) }
{
    match fault {
        PlanFault::NoWeight => Ok(()),
        PlanFault::TooHeavy { object } => tell(alloc, told, name_at(&decl.object_names, object)),
        PlanFault::CanMiss { object, inv, event } => {
            tell(alloc, told, name_at(&decl.object_names, object))?;
            tell_pair(alloc, told, decl, object, inv, event)
        }
    }
}

/// Tells the names of an invocation and an event of an object, where it has a
/// type, behind the object's name.
fn tell_pair(
    alloc: Global,
    told: &mut Names,
    decl: &Declaration,
    object: u8,
    inv: u8,
    event: u8,
) -> Result<(), OutOfMemory>
    requires { told.old ≡ name_of decl.now.object_names object ∷ [] }
    ensures { OnOk result (told.new ≡ plan_names decl.now (CanMiss object inv event)) }
{
    let (Some(names), Some(table)) = (decl.names_of(object), decl.table(object)) else {
        return Ok(());
    };
    tell(alloc, told, name_at(&names.invs, inv))?;
    tell_event(alloc, told, names, table, event)
}

/// Tells the name of an event, as `INV:RESP`.
fn tell_event(
    alloc: Global,
    told: &mut Names,
    names: &KindNames,
    table: &Table,
    event: u8,
) -> Result<(), OutOfMemory>
    ensures { OnOk result (told.new ≡ told.old ++ event_name names.now table.now event ∷ []) }
{
    told.push(event_name(alloc, names, table, event)?)
}

/// The name of an event, as `INV:RESP`.
fn event_name(
    alloc: Global,
    names: &KindNames,
    table: &Table,
    event: u8,
) -> Result<Name, OutOfMemory>
    ensures { IfOk result (λ name. name ≡ event_name names.now table.now event) }
{
    let Some(event) = table.events().get(event as usize) else {
        return Name::new(alloc, "");
    };
    let mut text = String::from_str(alloc, name_at(&names.invs, event.inv))?;
    text.push_str(":")?;
    text.push_str(name_at(&names.resps, event.resp))?;
    Name::new(alloc, text.as_str())
}

/// The name with this number, or no byte where there is none.
fn name_at(names: &Names, number: u8) -> &str
    ensures { result.now ≡ name_of names.now number }
{
    match names.items().get(number as usize) {
        Some(name) => name.text(),
        None => "",
    }
}
