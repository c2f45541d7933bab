//! One actor: a site, a client or the administrator, or none while it is down.

ghost use Rattle.std.specs.Prelude.{◌≡◌, ◌+◌, ◌<◌, ◌≤◌, ◌^◌, IfOk, OnErr};
ghost use Rattle.qc_client.specs.Fits.{promise_in};
ghost use Rattle.qc_decl.specs.Accepted.{IsAccepted};
ghost use Rattle.qc_admin.specs.Fits.{MessageFits};
ghost use Rattle.qc_decl.specs.Actors.{administrator};
ghost use Rattle.qc_epoch.specs.Deciding.{most_asks};
ghost use Rattle.qc_msg.specs.declared.step.Input.TheVariants as inputs;

use qc_admin::Admin;
use qc_client::Client;
use qc_decl::Declaration;
use qc_list::OutOfMemory;
use qc_msg::{Command, Message, Reply, Turn};
use qc_site::Site;
use std::alloc::Global;

/// An actor.
#[derive(Drop)]
pub enum Actor {
    /// A site.
    Site(Site),
    /// A client.
    Client(Client),
    /// The administrator.
    Admin(Admin),
    /// One that fell and hasn't risen: of what it was nothing is left.
    Down,
}

impl Actor {
    ghost use Rattle.qc_core.specs.Actors.{ActorFits, AsksFew, actor_hears, actor_sent, actor_takes, moved, new_actor};

    /// The actor of this number before it does anything.
    pub fn new(alloc: Global, decl: &Declaration, number: u8) -> Result<Actor, OutOfMemory>
        requires { number ≤ administrator decl.now }
        ensures { IfOk result (λ actor. actor ≡ new_actor decl.now number) }
    {
        if number < decl.sites {
            Ok(Actor::Site(Site::new(alloc, number)?))
        } else if number - decl.sites < decl.clients {
            Ok(Actor::Client(Client::new(alloc, number - decl.sites)))
        } else {
            Ok(Actor::Admin(Admin::new()))
        }
    }

    /// Takes a command. After want of memory the actor is as it was.
    pub fn call(
        &mut self,
        alloc: Global,
        decl: &Declaration,
        command: Command,
    ) -> Result<Turn, OutOfMemory>
        requires accepted { IsAccepted decl.now }
        requires fits { ActorFits self.old }
        ensures ok { IfOk result (λ turn. actor_takes decl.now self.old (inputs.Called command)
            ≡ moved self.new turn) }
        ensures err { OnErr result (self.new ≡ self.old) }
    {
        match self {
            Actor::Site(_) => Ok(Turn::quiet(alloc)),
            Actor::Client(client) => client.command(alloc, decl, &command),
            Actor::Admin(admin) => admin.command(alloc, decl, &command),
            Actor::Down => Ok(Turn::telling(alloc, Reply::Down)),
        }
    }

    /// Takes the message of this sender and number. After want of memory the
    /// actor is as it was.
    pub fn hear(
        &mut self,
        alloc: Global,
        decl: &Declaration,
        from: u8,
        number: u32,
        message: &Message,
    ) -> Result<Turn, OutOfMemory>
        requires accepted { IsAccepted decl.now }
        requires fits { ActorFits self.old }
        requires promise { promise_in message.now < 2 ^ 63 }
        requires message { MessageFits message.now }
        ensures ok { IfOk result (λ turn. actor_hears decl.now self.old from number message.now
            ≡ moved self.new turn) }
        ensures err { OnErr result (self.new ≡ self.old) }
    {
        match self {
            Actor::Site(site) => site.handle(alloc, decl, from, number, message),
            Actor::Client(client) => client.hear(alloc, decl, from, number, message),
            Actor::Admin(admin) => admin.hear(alloc, decl, message),
            Actor::Down => Ok(Turn::quiet(alloc)),
        }
    }

    /// Learns that its request of this number is lost. After want of memory the
    /// actor is as it was.
    pub fn lose(
        &mut self,
        alloc: Global,
        decl: &Declaration,
        number: u32,
    ) -> Result<Turn, OutOfMemory>
        requires accepted { IsAccepted decl.now }
        requires fits { ActorFits self.old }
        ensures ok { IfOk result (λ turn. actor_takes decl.now self.old (inputs.Lost number) ≡ moved self.new turn) }
        ensures err { OnErr result (self.new ≡ self.old) }
    {
        match self {
            Actor::Site(_) => Ok(Turn::quiet(alloc)),
            Actor::Client(client) => client.lose(alloc, decl, number),
            Actor::Admin(admin) => admin.lose(alloc, decl, number),
            Actor::Down => Ok(Turn::quiet(alloc)),
        }
    }

    /// The messages of its last turn were given the numbers from `first` on. It
    /// takes no memory.
    pub fn sent(&mut self, first: u32)
        requires few { AsksFew self.old }
        requires numbers { first + most_asks < 2 ^ 32 }
        ensures { self.new ≡ actor_sent self.old first }
    {
        match self {
            Actor::Site(_) => {}
            Actor::Client(client) => client.sent(first),
            Actor::Admin(admin) => admin.sent(first),
            Actor::Down => {}
        }
    }
}
