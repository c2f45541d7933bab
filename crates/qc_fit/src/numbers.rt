//! Which numbers are declared.

ghost use Rattle.std.specs.Prelude.{◌≡◌};
ghost use Rattle.qc_decl.specs.Actors.{is_client, is_site};
ghost use Rattle.qc_fit.specs.Numbers.{has_client, has_epoch, has_event, has_invocation, has_response};
ghost use Rattle.qc_fit.specs.Numbers.{is_administrator, is_clock, is_this_client};

use qc_decl::Declaration;

/// The greatest clock of a record that fits.
const GREATEST_CLOCK: u64 = 2_305_843_009_213_693_952;

/// Whether a clock leaves room for a run.
pub(crate) fn is_clock(clock: u64) -> bool
    ensures { result ≡ is_clock clock }
{
    clock <= GREATEST_CLOCK
}

/// Whether an actor is a site.
pub(crate) fn is_site(decl: &Declaration, actor: u8) -> bool
    ensures { result ≡ is_site decl.now actor }
{
    actor < decl.sites
}

/// Whether an actor is a client.
pub(crate) fn is_client(decl: &Declaration, actor: u8) -> bool
    ensures { result ≡ is_client decl.now actor }
{
    decl.sites <= actor && u16::from(actor) < u16::from(decl.sites) + u16::from(decl.clients)
}

/// Whether an actor is the client of this number.
pub(crate) fn is_this_client(decl: &Declaration, actor: u8, client: u8) -> bool
    ensures { result ≡ is_this_client decl.now actor client }
{
    is_client(decl, actor) && u16::from(actor) == u16::from(decl.sites) + u16::from(client)
}

/// Whether an actor is the administrator.
pub(crate) fn is_administrator(decl: &Declaration, actor: u8) -> bool
    ensures { result ≡ is_administrator decl.now actor }
{
    u16::from(actor) == u16::from(decl.sites) + u16::from(decl.clients)
}

/// Whether a client is declared.
pub(crate) fn has_client(decl: &Declaration, client: u8) -> bool
    ensures { result ≡ has_client decl.now client }
{
    client < decl.clients
}

/// Whether an epoch is declared.
pub(crate) fn has_epoch(decl: &Declaration, epoch: u8) -> bool
    ensures { result ≡ has_epoch decl.now epoch }
{
    decl.plan(epoch).is_some()
}

/// Whether an object is declared, and its type has the invocation.
pub(crate) fn has_invocation(decl: &Declaration, object: u8, inv: u8) -> bool
    ensures { result ≡ has_invocation decl.now object inv }
{
    match decl.table(object) {
        Some(table) => inv < table.invs(),
        None => false,
    }
}

/// Whether there is no response, or an object is declared and its type has the
/// response.
pub(crate) fn has_response(decl: &Declaration, object: u8, resp: Option<u8>) -> bool
    ensures { result ≡ has_response decl.now object resp }
{
    let Some(resp) = resp else {
        return true;
    };
    match decl.table(object) {
        Some(table) => resp < table.resps(),
        None => false,
    }
}

/// Whether an object is declared, and its type has the event.
pub(crate) fn has_event(decl: &Declaration, object: u8, event: u8) -> bool
    ensures { result ≡ has_event decl.now object event }
{
    match decl.table(object) {
        Some(table) => usize::from(event) < table.events().len(),
        None => false,
    }
}
