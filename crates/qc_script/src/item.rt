//! What a line asks for, once its names are declared.

ghost use Rattle.std.specs.Prelude.{◌≡◌, ◌+◌, ◌<◌};
ghost use Rattle.qc_decl.specs.Named.{IsNamed};
ghost use Rattle.qc_script.specs.Items.{site_in, client_in, actor_in, end_in, command_in, item_of};

use crate::actor::ActorName;
use crate::line::{ScriptLine, Verb};
use crate::script::CommandLine;
use qc_decl::Declaration;
use qc_link::Link;
use qc_msg::{Command, Control};

/// What a line asks for. Each actor, object and invocation is declared, and its
/// number stands for it; other numbers may be out of range.
#[derive(Clone, Copy)]
pub enum Item {
    /// The next phase begins here.
    Phase,
    /// A rule of a link.
    Link(Link),
    /// The controller does something.
    Control(Control),
    /// A client is asked something.
    Command(CommandLine),
    /// The administrator, who has this number, is asked to move to an epoch.
    Epoch { actor: u8, number: u32 },
}

impl Item {
    /// What a line asks for, if each of its names is declared.
    pub(crate) fn of(line: ScriptLine<'_>, decl: &Declaration) -> Option<Item>
        requires actors { decl.now.sites + decl.now.clients < 256 }
        requires named { IsNamed decl.now }
        ensures { result ≡ item_of decl.now line.entry }
    {
        match line {
            ScriptLine::Phase => Some(Item::Phase),
            ScriptLine::Link {
                from,
                to,
                ordinal,
                rule,
            } => Some(Item::Link(Link {
                from: end(from, decl)?,
                to: end(to, decl)?,
                ordinal,
                rule,
            })),
            ScriptLine::Cut(a, b) => Some(Item::Control(Control::Cut(
                actor(a, decl)?,
                actor(b, decl)?,
            ))),
            ScriptLine::Heal(a, b) => Some(Item::Control(Control::Heal(
                actor(a, decl)?,
                actor(b, decl)?,
            ))),
            ScriptLine::Crash(name) => Some(Item::Control(Control::Crash(actor(name, decl)?))),
            ScriptLine::Restart(name) => Some(Item::Control(Control::Restart(actor(name, decl)?))),
            ScriptLine::Armed {
                actor: name,
                kind,
                at,
            } => Some(Item::Control(Control::Armed {
                actor: actor(name, decl)?,
                kind,
                at,
            })),
            ScriptLine::Command {
                client: number,
                verb,
            } => Some(Item::Command(CommandLine {
                actor: client(number, decl)?,
                command: command(verb, decl)?,
            })),
            ScriptLine::Epoch { number } => Some(Item::Epoch {
                actor: decl.administrator(),
                number,
            }),
        }
    }
}

/// A site's number as an actor, if it is declared.
fn site(number: u32, decl: &Declaration) -> Option<u8>
    ensures { result ≡ site_in decl.now number }
{
    if number < u32::from(decl.sites) {
        Some(number as u8)
    } else {
        None
    }
}

/// A client's number as an actor, if it is declared.
fn client(number: u32, decl: &Declaration) -> Option<u8>
    requires { decl.now.sites + decl.now.clients < 256 }
    ensures { result ≡ client_in decl.now number }
{
    if number < u32::from(decl.clients) {
        Some(decl.client_actor(number as u8))
    } else {
        None
    }
}

/// An actor's number, if it is declared.
fn actor(name: ActorName, decl: &Declaration) -> Option<u8>
    requires { decl.now.sites + decl.now.clients < 256 }
    ensures { result ≡ actor_in decl.now name }
{
    match name {
        ActorName::Site(number) => site(number, decl),
        ActorName::Client(number) => client(number, decl),
        ActorName::Administrator => Some(decl.administrator()),
    }
}

/// The number of a link's end, if it is declared; none stands for all.
fn end(name: Option<ActorName>, decl: &Declaration) -> Option<Option<u8>>
    requires { decl.now.sites + decl.now.clients < 256 }
    ensures { result ≡ end_in decl.now name }
{
    match name {
        None => Some(None),
        Some(name) => Some(Some(actor(name, decl)?)),
    }
}

/// What a client is asked, if the object and the invocation are declared.
fn command(verb: Verb<'_>, decl: &Declaration) -> Option<Command>
    requires { IsNamed decl.now }
    ensures { result ≡ command_in decl.now verb.entry }
{
    match verb {
        Verb::Begin => Some(Command::Begin),
        Verb::Do { object, inv } => {
            let object = decl.object_named(object.bytes())?;
            let inv = decl.inv_named(object, inv.bytes())?;
            Some(Command::Do { object, inv })
        }
        Verb::Commit => Some(Command::Commit),
        Verb::Abort => Some(Command::Abort),
    }
}
